// Sets of exponential functions: every refusal with its whole fault, and what is written.
#![tactic(auto)]

#[cfg(test)]
mod tests {
    use fault::{Cause, Fault};
    use function::{Counts, Exponential, Instruction, Record};
    use set::{FULL_LIST, Memory, Set};
    use std::test::Fail;
    use units::House;

    const UNIT: [(f32, f32); 1] = [(0.0, 1.0)];

    // The three lists that a set is opened over.
    #[derive(Drop)]
    struct Lists<const R: usize, const N: usize, const I: usize> {
        records: [Record; R],
        numbers: [f32; N],
        instructions: [Instruction; I],
    }

    impl<const R: usize, const N: usize, const I: usize> Lists<R, N, I> {
        fn new() -> Self {
            Lists {
                records: [Record::EMPTY; R],
                numbers: [0.0; N],
                instructions: [Instruction::EMPTY; I],
            }
        }

        fn memory(&mut self) -> Result<Memory<'_>, Fault> {
            Memory::open(&mut self.records, &mut self.numbers, &mut self.instructions)
        }

        fn set(&mut self) -> Result<Set<'_>, Fault> {
            Set::open(&mut self.records, &mut self.numbers, &mut self.instructions)
        }
    }

    fn plain<'c>(domain: &'c [(f32, f32)], n: f32) -> Exponential<'c> {
        Exponential {
            domain,
            range: &[],
            c0: None,
            c1: None,
            n,
        }
    }

    #[test]
    fn lists_of_a_set(rt: HostRuntime) {
        let refused = Some(Fault::new(Cause::SetList, 0));
        assert_eq!(rt; Lists::<1, 1, 1>::new().memory().err(), None);
        assert_eq!(rt; Lists::<256, 16384, 4096>::new().memory().err(), None);
        assert_eq!(rt; Lists::<0, 1, 1>::new().memory().err(), refused);
        assert_eq!(rt; Lists::<257, 1, 1>::new().memory().err(), refused);
        assert_eq!(rt; Lists::<1, 0, 1>::new().memory().err(), refused);
        assert_eq!(rt; Lists::<1, 16385, 1>::new().memory().err(), refused);
        assert_eq!(rt; Lists::<1, 1, 0>::new().memory().err(), refused);
        assert_eq!(rt; Lists::<1, 1, 4097>::new().memory().err(), refused);
    }

    // What loading the function into a fresh set with one function comes to.
    fn load_second(given: &Exponential) -> Result<usize, Fault> {
        let mut lists = Lists::<4, 200, 1>::new();
        let mut set = Set::over(lists.memory()?);
        set.load_exponential(&plain(&UNIT, 1.0))?;
        set.load_exponential(given)
    }

    fn load_over(domain: &[(f32, f32)], n: f32) -> Result<usize, Fault> {
        load_second(&plain(domain, n))
    }

    // The refusal of a second function.
    fn refused(cause: Cause) -> Result<usize, Fault> {
        Err(Fault::new(cause, 1))
    }

    #[test]
    fn loading_is_refused_by_rising_number(rt: HostRuntime) {
        let two = [(0.0, 1.0), (0.0, 1.0)];
        assert_eq!(rt; load_over(&[], 1.0), refused(Cause::Count));
        assert_eq!(rt; load_over(&two, f32::NAN), refused(Cause::Count));
        assert_eq!(rt;
            load_over(&[(1.0, f32::INFINITY)], 1.0),
            refused(Cause::NotFinite)
        );
        assert_eq!(rt;
            load_over(&[(1.0, 0.0)], f32::NAN),
            refused(Cause::NotFinite)
        );
        assert_eq!(rt; load_over(&[(1.0, 0.0)], 1.0), refused(Cause::UpsideDown));
        assert_eq!(rt; load_over(&[(1.0, 1.0)], 1.0), Ok(1));
    }

    #[test]
    fn coefficients_are_counted(rt: HostRuntime) {
        let many = [0.5f32; 33];
        let mut given = plain(&UNIT, 1.0);
        given.c0 = Some(&many[0..0]);
        assert_eq!(rt; load_second(&given), refused(Cause::Count));
        given.c0 = Some(&many[0..33]);
        assert_eq!(rt; load_second(&given), refused(Cause::Count));
        given.c0 = Some(&many[0..32]);
        assert_eq!(rt; load_second(&given), refused(Cause::CountsDisagree));
        given.c1 = Some(&many[0..32]);
        assert_eq!(rt; load_second(&given), Ok(1));
        given.c1 = Some(&many[0..0]);
        assert_eq!(rt; load_second(&given), refused(Cause::Count));
    }

    #[test]
    fn range_is_held_against_the_coefficients(rt: HostRuntime) {
        let pairs = [(0.0f32, 1.0f32); 33];
        let mut given = plain(&UNIT, 1.0);
        given.range = &pairs[0..1];
        assert_eq!(rt; load_second(&given), Ok(1));
        given.range = &pairs[0..2];
        assert_eq!(rt; load_second(&given), refused(Cause::CountsDisagree));
        given.range = &pairs;
        assert_eq!(rt; load_second(&given), refused(Cause::Count));
        given.range = &[(1.0, 0.0)];
        assert_eq!(rt; load_second(&given), refused(Cause::UpsideDown));
    }

    #[test]
    fn every_number_is_finite(rt: HostRuntime) {
        let odd = [f32::NAN];
        let pairs = [(0.0, f32::INFINITY)];
        let mut given = plain(&UNIT, 1.0);
        given.range = &pairs[0..1];
        assert_eq!(rt; load_second(&given), refused(Cause::NotFinite));
        given.range = &pairs[0..0];
        given.c0 = Some(&odd[0..1]);
        assert_eq!(rt; load_second(&given), refused(Cause::NotFinite));
        given.c0 = None;
        given.c1 = Some(&odd[0..1]);
        assert_eq!(rt; load_second(&given), refused(Cause::NotFinite));
    }

    #[test]
    fn the_function_list_runs_out(rt: HostRuntime) -> Result<(), Fail> {
        let mut lists = Lists::<1, 64, 1>::new();
        let mut set = Set::over(lists.memory()?);
        assert_eq!(rt; set.load_exponential(&plain(&UNIT, 1.0)), Ok(0));
        assert_eq!(rt;
            set.load_exponential(&plain(&UNIT, 1.0)),
            Err(Fault::new(Cause::Room, 1))
        );
        Ok(())
    }

    // Evaluates a set of one function on one input.
    fn evaluate(given: &Exponential, x: f32, outputs: &mut [f32]) -> Result<Counts, Fault> {
        let mut lists = Lists::<1, 24, 1>::new();
        let mut set = Set::over(lists.memory()?);
        set.load_exponential(given)?;
        set.evaluate(&mut House, 0, &[x], outputs)
    }

    #[test]
    fn just_the_outputs_are_written(rt: HostRuntime) {
        assert_eq!(rt; FULL_LIST, 64);
        let one_output = Ok(Counts {
            outputs: 1,
            steps: 1,
            drops: 0,
        });
        let mut outputs = [7.5f32; 64];
        assert_eq!(rt; evaluate(&plain(&UNIT, 2.0), 0.5, &mut outputs), one_output);
        assert!(rt; outputs[0] == 0.25 && outputs[1] == 7.5);
        let mut outputs = [7.5f32; 64];
        assert!(rt; evaluate(&plain(&UNIT, 1.0), f32::NAN, &mut outputs).is_ok());
        assert!(rt; outputs[0] == 1.0);
        let mut outputs = [7.5f32; 63];
        let short = Err(Fault::new(Cause::OutputList, 0));
        assert_eq!(rt; evaluate(&plain(&UNIT, 1.0), 0.5, &mut outputs), short);
        assert!(rt; outputs[0] == 7.5);
    }

    #[test]
    fn entries_run_out(rt: HostRuntime) -> Result<(), Fail> {
        let mut lists = Lists::<3, 10, 1>::new();
        let mut set = Set::over(lists.memory()?);
        assert_eq!(rt; set.load_exponential(&plain(&UNIT, 1.0)), Ok(0));
        assert_eq!(rt; set.load_exponential(&plain(&UNIT, 1.0)), Ok(1));
        assert_eq!(rt;
            set.load_exponential(&plain(&UNIT, 1.0)),
            Err(Fault::new(Cause::Room, 2))
        );
        let mut outputs = [0.0f32; 64];
        assert!(rt; set.evaluate(&mut House, 1, &[0.5], &mut outputs).is_ok());
        let missing = Err(Fault::new(Cause::NoFunction, 2));
        assert_eq!(rt; set.evaluate(&mut House, 2, &[0.5], &mut outputs), missing);
        let without_input = Err(Fault::new(Cause::InputCount, 1));
        assert_eq!(rt;
            set.evaluate(&mut House, 1, &[], &mut outputs),
            without_input
        );
        Ok(())
    }

    #[test]
    fn a_set_is_opened_in_one_call(rt: HostRuntime) -> Result<(), Fail> {
        let mut lists = Lists::<1, 5, 1>::new();
        let mut outputs = [7.5f32; 64];
        let mut set = lists.set()?;
        assert_eq!(rt; set.load_exponential(&plain(&UNIT, 2.0)), Ok(0));
        assert!(rt; set.evaluate(&mut House, 0, &[0.5], &mut outputs).is_ok());
        assert!(rt; outputs[0] == 0.25 && outputs[1] == 7.5);
        Ok(())
    }

    #[test]
    fn an_empty_list_is_refused_in_one_call(rt: HostRuntime) {
        let refused = Some(Fault::new(Cause::SetList, 0));
        assert_eq!(rt; Lists::<1, 1, 1>::new().set().err(), None);
        assert_eq!(rt; Lists::<0, 1, 1>::new().set().err(), refused);
        assert_eq!(rt; Lists::<1, 0, 1>::new().set().err(), refused);
        assert_eq!(rt; Lists::<1, 1, 0>::new().set().err(), refused);
    }
}
