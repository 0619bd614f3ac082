use store::registers::Registers;

// One register for each key, which every site sees at once.
#[derive(Clone, Copy)]
pub struct Smallest {
    pub(crate) registers: Registers,
}
