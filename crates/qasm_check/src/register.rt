//! Classical registers.

use qasm_parser::Name;

/// A classical register.
#[derive(Drop)]
pub struct ClassicalRegister {
    pub name: Name,
    pub size: u32,
}
