//! The calls that read an element of one type by the name of its type.

use sct_element::*;
use std::test::Fail;

#[test]
fn reads_elements_by_their_types(rt: HostRuntime) -> Result<(), Fail> {
    let iban = read_iban("GB82west12345698765432")?;
    assert_eq!(rt; iban.text(), "GB82WEST12345698765432");
    assert_eq!(rt; read_stamp("/")?.text(), "/");
    assert_eq!(rt; read_code("AC04")?.text(), "AC04");
    let name = read_name(rt.alloc(), "Zoë Ångström & Søn\t")?;
    assert_eq!(rt; name.text(), "Zoë Ångström & Søn\t");
    let remittance = read_remittance(rt.alloc(), "Invoice 7")?;
    assert_eq!(rt; remittance.text(), "Invoice 7");
    Ok(())
}

/// The number of the fault that a text was refused with, and 0 if it was read.
fn number_of<T: Drop>(read: Result<T, ElementFault>) -> u8 {
    match read {
        Ok(_) => 0,
        Err(fault) => fault.number(),
    }
}

#[test]
fn each_type_has_a_fault_of_its_own(rt: HostRuntime) {
    assert_eq!(rt; number_of(read_iban("")), 2);
    assert_eq!(rt; number_of(read_name(rt.alloc(), "")), 6);
    assert_eq!(rt; number_of(read_remittance(rt.alloc(), "")), 6);
    assert_eq!(rt; number_of(read_stamp("")), 7);
    assert_eq!(rt; number_of(read_code("")), 9);
}
