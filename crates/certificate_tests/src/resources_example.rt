use resources::{ResourceChoice, read_ip_blocks};
use std::test::Fail;

#[test]
fn addresses_of_a_prefix_are_read(rt: HostRuntime) -> Result<(), Fail> {
    // 192.0.2.0/24
    let value = b"\x30\x0e\x30\x0c\x04\x02\x00\x01\x30\x06\x03\x04\x00\xc0\x00\x02";
    let ip = read_ip_blocks(rt.alloc(), value)?;
    if let Some(ResourceChoice::Listed(ranges)) = &ip.v4 {
        for range in ranges.as_slice() {
            assert!(rt; range.low == 0xc0000200 && range.high == 0xc00002ff);
        }
    }
    Ok(())
}
