// Tests of the sheet's calls at the edges of what they refuse.

#![tactic(auto)]

#[cfg(test)]
mod tests {
    use arithmetic::GenericExpfBackend;
    use sheet::calls::{clear, enter, lay, read, work};
    use sheet::fault::Fault;
    use sheet::peg::Peg;
    use sheet::replay::{Command, Step, replay};

    #[test]
    fn sizes(rt: HostRuntime) {
        let mut one = [Peg::blank(); 1];
        let mut largest = [Peg::blank(); 4096];
        let mut larger = [Peg::blank(); 4097];
        assert_eq!(rt; lay(&mut one[0..0]), Err(Fault::SheetSize));
        assert_eq!(rt; lay(&mut one), Ok(1));
        assert_eq!(rt; lay(&mut largest), Ok(4096));
        assert_eq!(rt; lay(&mut larger), Err(Fault::SheetSize));
    }

    #[test]
    fn peg_numbers(rt: HostRuntime) {
        let mut sheet = [Peg::blank(); 3];
        assert_eq!(rt; enter(&mut sheet, 3, 0, 1.0), Err(Fault::PegNumber));
        assert_eq!(rt; enter(&mut sheet, u16::MAX, 0, 1.0), Err(Fault::PegNumber));
        assert_eq!(rt; enter(&mut sheet, 2, 0, 1.0), Ok(0));
        assert_eq!(rt; read(&sheet, 3), Err(Fault::PegNumber));
        assert_eq!(rt; clear(&mut sheet, 3), Err(Fault::PegNumber));
        assert_eq!(rt; clear(&mut sheet, 2), Ok(0));
    }

    #[test]
    fn codes_and_inputs(rt: HostRuntime) {
        let mut sheet = [Peg::blank(); 2];
        assert_eq!(rt; enter(&mut sheet, 9, 4, f32::NAN), Err(Fault::FunctionCode));
        assert_eq!(rt;
            enter(&mut sheet, 9, u8::MAX, 1.0),
            Err(Fault::FunctionCode)
        );
        assert_eq!(rt;
            enter(&mut sheet, 9, 3, f32::NAN),
            Err(Fault::InputNotFinite)
        );
        assert_eq!(rt;
            enter(&mut sheet, 0, 3, -f32::NAN),
            Err(Fault::InputNotFinite)
        );
        assert_eq!(rt;
            enter(&mut sheet, 0, 0, f32::INFINITY),
            Err(Fault::InputNotFinite)
        );
        assert_eq!(rt;
            enter(&mut sheet, 0, 0, f32::NEG_INFINITY),
            Err(Fault::InputNotFinite)
        );
        assert_eq!(rt; enter(&mut sheet, 0, 3, f32::MAX), Ok(0));
        assert_eq!(rt; enter(&mut sheet, 1, 0, f32::MIN), Ok(0));
    }

    #[test]
    fn marks(rt: HostRuntime) {
        let mut sheet = [Peg::blank(); 1];
        let arith = GenericExpfBackend {};
        assert_eq!(rt; read(&sheet, 0), Err(Fault::PegBlank));
        assert_eq!(rt; clear(&mut sheet, 0), Err(Fault::PegBlank));
        assert_eq!(rt; enter(&mut sheet, 0, 1, 3.0), Ok(0));
        assert_eq!(rt; enter(&mut sheet, 0, 1, 3.0), Err(Fault::PegNotBlank));
        assert_eq!(rt; read(&sheet, 0), Err(Fault::PegNotWorked));
        assert_eq!(rt; work(&mut sheet, 0, 1, &arith), Ok(1));
        assert_eq!(rt; work(&mut sheet, 0, 1, &arith), Ok(0));
        assert_eq!(rt; enter(&mut sheet, 0, 1, 3.0), Err(Fault::PegNotBlank));
        assert_eq!(rt; read(&sheet, 0), Ok(0x4100_0000));
        assert_eq!(rt; clear(&mut sheet, 0), Ok(0));
        assert_eq!(rt; read(&sheet, 0), Err(Fault::PegBlank));
    }

    #[test]
    fn parts(rt: HostRuntime) {
        let mut sheet = [Peg::blank(); 3];
        let arith = GenericExpfBackend {};
        assert_eq!(rt; enter(&mut sheet, 0, 0, 0.0), Ok(0));
        assert_eq!(rt; enter(&mut sheet, 2, 3, -0.0), Ok(0));
        assert_eq!(rt; work(&mut sheet, 3, 0, &arith), Ok(0));
        assert_eq!(rt; work(&mut sheet, 4, 0, &arith), Err(Fault::PartRange));
        assert_eq!(rt; work(&mut sheet, 1, 3, &arith), Err(Fault::PartRange));
        assert_eq!(rt;
            work(&mut sheet, 0, u32::MAX, &arith),
            Err(Fault::PartRange)
        );
        assert_eq!(rt;
            work(&mut sheet, u16::MAX, u32::MAX, &arith),
            Err(Fault::PartRange)
        );
        assert_eq!(rt; read(&sheet, 2), Err(Fault::PegNotWorked));
        assert_eq!(rt; work(&mut sheet, 1, 2, &arith), Ok(1));
        assert_eq!(rt; read(&sheet, 0), Err(Fault::PegNotWorked));
        assert_eq!(rt; read(&sheet, 2), Ok(0x8000_0000));
        assert_eq!(rt; work(&mut sheet, 0, 3, &arith), Ok(1));
        assert_eq!(rt; read(&sheet, 0), Ok(0x3f80_0000));
    }

    fn step(command: Command) -> Step<GenericExpfBackend> {
        Step {
            command,
            arith: GenericExpfBackend {},
            answer: Ok(0),
        }
    }

    #[test]
    fn lists(rt: HostRuntime) {
        let mut sheet = [Peg::blank(); 2];
        let mut list = [
            step(Command::Enter {
                peg: 1,
                code: 1,
                input: 3.0,
            }),
            step(Command::Work { first: 0, count: 2 }),
            step(Command::Read { peg: 1 }),
            step(Command::Read { peg: 0 }),
        ];
        assert_eq!(rt; replay(&mut sheet[0..0], &mut list), Err(Fault::SheetSize));
        assert_eq!(rt; replay(&mut sheet, &mut list), Ok(2));
        let [entered, worked, figure, blank] = list;
        assert_eq!(rt; entered.answer, Ok(0));
        assert_eq!(rt; worked.answer, Ok(1));
        assert_eq!(rt; figure.answer, Ok(0x4100_0000));
        assert_eq!(rt; blank.answer, Err(Fault::PegBlank));
    }
}
