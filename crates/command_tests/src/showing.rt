// What comes of a line, as text.
use command::read_line;
use std::alloc::{AllocError, Global};
use std::process::Abort;
use std::test::Fail;

// The command, `nothing` for a blank line or a comment, or why the line is not understood.
pub fn told(heap: Global, line: &str) -> Result<String, AllocError> {
    match read_line(heap, line) {
        Ok(Some(command)) => format!(in heap; "{command:?}"),
        Ok(None) => String::from_str(heap, "nothing"),
        Err(e) => format!(in heap; "{e}"),
    }
}

// Of each line the text beside it is told.
pub fn assert_told(rt: &impl Abort, heap: Global, lines: &[(&str, &str)]) -> Result<(), Fail> {
    for &(line, text) in lines {
        assert_eq!(rt; told(heap, line)?.as_str(), text, "{}", line);
    }
    Ok(())
}
