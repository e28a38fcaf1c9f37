// Whole jobs against their records.
#![tactic(auto)]

#[cfg(test)]
mod tests {
    use session::{Record, run_job};
    use std::process::Abort;
    use std::test::Fail;

    // The job writes this record, and ends with this error, if any.
    fn writes(
        rt: &(impl Abort + AllocGlobal),
        job: &str,
        record: &str,
        wrong: Option<&str>,
    ) -> Result<(), Fail> {
        let Record { text, error } = run_job(rt.alloc(), job)?;
        assert_eq!(rt; text.as_str(), record);
        assert_eq!(rt; error.as_deref(), wrong);
        Ok(())
    }

    #[test]
    fn nothing_is_written_for_comments(rt: HostRuntime) -> Result<(), Fail> {
        writes(&rt, "", "", None)?;
        writes(&rt, "# a comment\n\n   \t\n#eval\n", "", None)
    }

    #[test]
    fn a_call_before_any_set(rt: HostRuntime) -> Result<(), Fail> {
        writes(
            &rt,
            "eval 0 64 1\nask 2 3 2\n",
            "eval 0 64 1\n  no set\nask 2 3 2\n  answer 41100000 (9)\n",
            None,
        )?;
        writes(
            &rt,
            "reset\nexponential n 1",
            "reset\n  reset\nexponential n 1\n  no set\n",
            None,
        )
    }

    #[test]
    fn a_wrong_line_ends_the_job(rt: HostRuntime) -> Result<(), Fail> {
        writes(
            &rt,
            "open 1 9 1\n\nevaluate 0\nreset\n",
            "open 1 9 1\n  opened\n",
            Some("line 3: unknown command 'evaluate'"),
        )?;
        writes(&rt, "vet 0\n", "", Some("line 1: unknown command 'vet'"))?;
        writes(
            &rt,
            "open 1 9",
            "",
            Some("line 1: a number is missing after '9'"),
        )
    }

    #[test]
    fn a_refused_open_keeps_the_set(rt: HostRuntime) -> Result<(), Fail> {
        let job = "open 1 9 1\nexponential domain 0 1 ; n 1\nopen 300 9 1\neval 0 64 0.5\n";
        let kept =
            "open 1 9 1\n  opened\nexponential domain 0 1 ; n 1\n  loaded 0\nopen 300 9 1\n  fault 1 layer 4 index 0 place 0 (a list of the set is empty or too long)\neval 0 64 0.5\n  outputs 1 steps 1 drops 0 : 3f000000 (0.5)\n";
        writes(&rt, job, kept, None)
    }
}
