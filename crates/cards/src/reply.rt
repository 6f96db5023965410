// A reply as bytes: the number of the refusal or 0, and the result or 0.
ghost use Rattle.std.specs.Prelude.{◌≡◌};
ghost use Rattle.cards.specs.Format.{reply_of, RepliesTell};

use sheet::fault::Fault;

// A function: neither type is this crate's, so that no From can stand here, and a type for five bytes would be no plainer.
pub fn reply(answer: Result<u32, Fault>) -> [u8; 5]
    ensures { result ≡ reply_of answer }
{
    let (refusal, value) = match answer {
        Ok(v) => (0, v),
        Err(e) => (u8::from(e), 0),
    };
    let [a, b, c, d] = value.to_be_bytes();
    [refusal, a, b, c, d]
}

// The bytes of a reply tell the refusal and the result.
pub fn replies_tell()
    ensures { RepliesTell }
{}
