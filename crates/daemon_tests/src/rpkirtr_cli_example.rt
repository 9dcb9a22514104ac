use rpkirtr_cli::{Command, read_words};
use std::test::Fail;

#[test]
fn words_are_read(rt: HostRuntime) -> Result<(), Fail> {
    let mut words = Vec::new(rt.alloc());
    for word in ["roa", "a.roa"] {
        words.push(String::from_str(rt.alloc(), word)?)?;
    }
    match read_words(rt.alloc(), words.as_slice())? {
        Command::Roa { file } => assert!(rt; file == "a.roa"),
        _ => assert!(rt; false),
    }
    Ok(())
}
