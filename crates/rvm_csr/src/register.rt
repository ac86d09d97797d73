//! The CSRs that a hart has, and their numbers.

ghost use Rattle.std.specs.Prelude.{◌≡◌};
ghost use Rattle.rvm_csr.specs.Table.{csr_at, is_read_only};

/// A CSR of a hart, by its name in the manual (Privileged ISA, "CSR Listing"). One name stands for
/// registers that the manual numbers in a row, as `mhpmcounter3` to `mhpmcounter31`.
#[derive(Clone, Copy, Debug, PartialEq, Eq)]
pub enum Csr {
    Mstatus,
    Misa,
    Mie,
    Mtvec,
    Mstatush,
    Mcountinhibit,
    Mhpmevent,
    Mscratch,
    Mepc,
    Mcause,
    Mtval,
    Mip,
    Mcycle,
    Minstret,
    Mhpmcounter,
    Mcycleh,
    Minstreth,
    Mhpmcounterh,
    Mvendorid,
    Marchid,
    Mimpid,
    Mhartid,
    Mconfigptr,
}

impl Csr {
    /// The CSR of this number, if a hart has it.
    #[inline(always)]
    #[tactic(auto, unfolding(crate::specs::Table::table, crate::specs::Table::csr_at))]
    pub fn at(number: u32) -> Option<Csr>
        ensures { result ≡ csr_at number }
    {
        match number {
            0x300 => Some(Csr::Mstatus),
            0x301 => Some(Csr::Misa),
            0x304 => Some(Csr::Mie),
            0x305 => Some(Csr::Mtvec),
            0x310 => Some(Csr::Mstatush),
            0x320 => Some(Csr::Mcountinhibit),
            0x323..=0x33F => Some(Csr::Mhpmevent),
            0x340 => Some(Csr::Mscratch),
            0x341 => Some(Csr::Mepc),
            0x342 => Some(Csr::Mcause),
            0x343 => Some(Csr::Mtval),
            0x344 => Some(Csr::Mip),
            0xB00 => Some(Csr::Mcycle),
            0xB02 => Some(Csr::Minstret),
            0xB03..=0xB1F => Some(Csr::Mhpmcounter),
            0xB80 => Some(Csr::Mcycleh),
            0xB82 => Some(Csr::Minstreth),
            0xB83..=0xB9F => Some(Csr::Mhpmcounterh),
            0xF11 => Some(Csr::Mvendorid),
            0xF12 => Some(Csr::Marchid),
            0xF13 => Some(Csr::Mimpid),
            0xF14 => Some(Csr::Mhartid),
            0xF15 => Some(Csr::Mconfigptr),
            _ => None,
        }
    }
}

/// Whether the CSR of this number is read-only: the top two of the number's twelve bits are set
/// (Privileged ISA, "CSR Address Mapping Conventions").
#[inline]
pub fn is_read_only(number: u32) -> bool
    ensures { result ≡ is_read_only number }
{
    number >> 10 & 3 == 3
}
