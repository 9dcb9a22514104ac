use rpkirtrd_cli::{Command, read_words};
use std::test::Fail;

#[test]
fn words_ask_for_a_run(rt: HostRuntime) -> Result<(), Fail> {
    let mut words = Vec::new(rt.alloc());
    for word in ["--vrps", "vrps.json", "--keep", "8"] {
        words.push(String::from_str(rt.alloc(), word)?)?;
    }
    match read_words(rt.alloc(), words.as_slice())? {
        Command::Serve(settings) => assert!(rt; settings.keep == 8),
        _ => assert!(rt; false),
    }
    Ok(())
}
