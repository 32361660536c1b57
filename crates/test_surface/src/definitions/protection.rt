//! The rows of protection.
use crate::checks::check_at;
use rv_isa::Width;
use rv_pmp::{Access, Mode, Pmp};
use test_definitions::protection::ACCESSES;

/// Returns protection with these addresses and configurations.
fn protection(addresses: [u32; 4], config: u32) -> Option<Pmp> {
    let mut pmp = Pmp::new();
    pmp.write_csr(0x3b0, addresses[0])?;
    pmp.write_csr(0x3b1, addresses[1])?;
    pmp.write_csr(0x3b2, addresses[2])?;
    pmp.write_csr(0x3b3, addresses[3])?;
    pmp.write_csr(0x3a0, config)?;
    Some(pmp)
}

/// Whether such protection allows an access.
fn allows(pmp: Option<Pmp>, mode: Mode, access: Access, addr: u32, width: Width) -> Option<bool> {
    Some(pmp?.allowed(mode, access, addr, width))
}

#[test]
fn accesses(rt: HostRuntime) {
    for &(addresses, config, mode, access, addr, width, answer) in ACCESSES.iter() {
        let pmp = protection(addresses, config);
        check_at(
            &rt,
            allows(pmp, mode, access, addr, width) == Some(answer),
            addr,
        );
    }
}
