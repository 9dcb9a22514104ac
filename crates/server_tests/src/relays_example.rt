use relays::laws;
use std::test::Fail;

#[test]
fn a_chain_holds_what_its_first_cache_published(rt: HostRuntime) -> Result<(), Fail> {
    laws::chain();
    Ok(())
}
