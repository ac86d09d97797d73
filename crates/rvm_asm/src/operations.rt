//! The instructions by the shape of their operands (Unprivileged ISA, "RV32/64G Instruction Set
//! Listings").

ghost use Rattle.std.specs.Prelude.{◌≡◌};
ghost use Rattle.rvm_asm.specs.Operations.{without, ordered, atomic_of, operation_of, upper_ins};
ghost use Rattle.rvm_asm.specs.Operations.{branch_ins, load_ins, store_ins, immediate_ins};
ghost use Rattle.rvm_asm.specs.Operations.{shift_ins, register_ins, whole_ins, csr_ins};
ghost use Rattle.rvm_asm.specs.Operations.{csr_immediate_ins, atomic_ins};
ghost use Rattle.rvm_asm.specs.LineViews.{seen_stem, seen_ordered};

use crate::words::named;
use rvm_isa::{CsrNo, Imm5, Imm12, Imm20, Ins, Off13, Reg, Shamt};

/// Whether an atomic instruction acquires and whether it releases.
#[derive(Clone, Copy)]
pub struct Ordering {
    pub aq: bool,
    pub rl: bool,
}

/// An instruction with rd and the upper 20 bits of a word.
#[derive(Clone, Copy)]
pub enum Upper {
    Lui,
    Auipc,
}

/// A branch, with rs1, rs2 and an offset.
#[derive(Clone, Copy)]
pub enum Branch {
    Beq,
    Bne,
    Blt,
    Bge,
    Bltu,
    Bgeu,
}

/// A load, or jalr, with rd, rs1 and an immediate.
#[derive(Clone, Copy)]
pub enum Load {
    Jalr,
    Lb,
    Lh,
    Lw,
    Lbu,
    Lhu,
}

/// A store, with rs1, rs2 and an immediate.
#[derive(Clone, Copy)]
pub enum Store {
    Sb,
    Sh,
    Sw,
}

/// An instruction with rd, rs1 and an immediate.
#[derive(Clone, Copy)]
pub enum Immediate {
    Addi,
    Slti,
    Sltiu,
    Xori,
    Ori,
    Andi,
}

/// A shift by an amount, with rd and rs1.
#[derive(Clone, Copy)]
pub enum Shift {
    Slli,
    Srli,
    Srai,
}

/// An instruction with rd, rs1 and rs2.
#[derive(Clone, Copy)]
pub enum Register {
    Add,
    Sub,
    Sll,
    Slt,
    Sltu,
    Xor,
    Srl,
    Sra,
    Or,
    And,
    Mul,
    Mulh,
    Mulhsu,
    Mulhu,
    Div,
    Divu,
    Rem,
    Remu,
}

/// An instruction without operands.
#[derive(Clone, Copy)]
pub enum Whole {
    Fence,
    FenceI,
    Ecall,
    Ebreak,
    Mret,
    Wfi,
}

/// An instruction with rd, rs1 and a control and status register.
#[derive(Clone, Copy)]
pub enum Csr {
    Csrrw,
    Csrrs,
    Csrrc,
}

/// An instruction with rd, an immediate and a control and status register.
#[derive(Clone, Copy)]
pub enum CsrImmediate {
    Csrrwi,
    Csrrsi,
    Csrrci,
}

/// An atomic instruction with rd, rs1 and rs2.
#[derive(Clone, Copy)]
pub enum Atomic {
    ScW,
    AmoswapW,
    AmoaddW,
    AmoxorW,
    AmoandW,
    AmoorW,
    AmominW,
    AmomaxW,
    AmominuW,
    AmomaxuW,
}

/// The name of an instruction: the shape of its operands, and which instruction of that shape it is.
#[derive(Clone, Copy)]
pub enum Operation {
    Upper(Upper),
    Branch(Branch),
    Load(Load),
    Store(Store),
    Immediate(Immediate),
    Shift(Shift),
    Register(Register),
    Whole(Whole),
    Csr(Csr),
    CsrImmediate(CsrImmediate),
    /// jal.
    Jump,
    /// lr.w.
    LoadReserved(Ordering),
    Atomic(Atomic, Ordering),
}

/// The instructions, without the atomic ones.
const OPERATIONS: [(&str, Operation); 57] = [
    ("jal", Operation::Jump),
    ("lui", Operation::Upper(Upper::Lui)),
    ("auipc", Operation::Upper(Upper::Auipc)),
    ("beq", Operation::Branch(Branch::Beq)),
    ("bne", Operation::Branch(Branch::Bne)),
    ("blt", Operation::Branch(Branch::Blt)),
    ("bge", Operation::Branch(Branch::Bge)),
    ("bltu", Operation::Branch(Branch::Bltu)),
    ("bgeu", Operation::Branch(Branch::Bgeu)),
    ("jalr", Operation::Load(Load::Jalr)),
    ("lb", Operation::Load(Load::Lb)),
    ("lh", Operation::Load(Load::Lh)),
    ("lw", Operation::Load(Load::Lw)),
    ("lbu", Operation::Load(Load::Lbu)),
    ("lhu", Operation::Load(Load::Lhu)),
    ("sb", Operation::Store(Store::Sb)),
    ("sh", Operation::Store(Store::Sh)),
    ("sw", Operation::Store(Store::Sw)),
    ("addi", Operation::Immediate(Immediate::Addi)),
    ("slti", Operation::Immediate(Immediate::Slti)),
    ("sltiu", Operation::Immediate(Immediate::Sltiu)),
    ("xori", Operation::Immediate(Immediate::Xori)),
    ("ori", Operation::Immediate(Immediate::Ori)),
    ("andi", Operation::Immediate(Immediate::Andi)),
    ("slli", Operation::Shift(Shift::Slli)),
    ("srli", Operation::Shift(Shift::Srli)),
    ("srai", Operation::Shift(Shift::Srai)),
    ("add", Operation::Register(Register::Add)),
    ("sub", Operation::Register(Register::Sub)),
    ("sll", Operation::Register(Register::Sll)),
    ("slt", Operation::Register(Register::Slt)),
    ("sltu", Operation::Register(Register::Sltu)),
    ("xor", Operation::Register(Register::Xor)),
    ("srl", Operation::Register(Register::Srl)),
    ("sra", Operation::Register(Register::Sra)),
    ("or", Operation::Register(Register::Or)),
    ("and", Operation::Register(Register::And)),
    ("mul", Operation::Register(Register::Mul)),
    ("mulh", Operation::Register(Register::Mulh)),
    ("mulhsu", Operation::Register(Register::Mulhsu)),
    ("mulhu", Operation::Register(Register::Mulhu)),
    ("div", Operation::Register(Register::Div)),
    ("divu", Operation::Register(Register::Divu)),
    ("rem", Operation::Register(Register::Rem)),
    ("remu", Operation::Register(Register::Remu)),
    ("fence", Operation::Whole(Whole::Fence)),
    ("fence.i", Operation::Whole(Whole::FenceI)),
    ("ecall", Operation::Whole(Whole::Ecall)),
    ("ebreak", Operation::Whole(Whole::Ebreak)),
    ("mret", Operation::Whole(Whole::Mret)),
    ("wfi", Operation::Whole(Whole::Wfi)),
    ("csrrw", Operation::Csr(Csr::Csrrw)),
    ("csrrs", Operation::Csr(Csr::Csrrs)),
    ("csrrc", Operation::Csr(Csr::Csrrc)),
    ("csrrwi", Operation::CsrImmediate(CsrImmediate::Csrrwi)),
    ("csrrsi", Operation::CsrImmediate(CsrImmediate::Csrrsi)),
    ("csrrci", Operation::CsrImmediate(CsrImmediate::Csrrci)),
];

/// The atomic instructions with rd, rs2 and rs1, without their ordering.
const ATOMICS: [(&str, Atomic); 10] = [
    ("sc.w", Atomic::ScW),
    ("amoswap.w", Atomic::AmoswapW),
    ("amoadd.w", Atomic::AmoaddW),
    ("amoxor.w", Atomic::AmoxorW),
    ("amoand.w", Atomic::AmoandW),
    ("amoor.w", Atomic::AmoorW),
    ("amomin.w", Atomic::AmominW),
    ("amomax.w", Atomic::AmomaxW),
    ("amominu.w", Atomic::AmominuW),
    ("amomaxu.w", Atomic::AmomaxuW),
];

/// The instruction that a word names, or `None` if it names none.
#[tactic(auto, unfolding(crate::specs::Operations::operation_of, crate::specs::Operations::operations))]
pub fn operation_named(word: &[u8]) -> Option<Operation>
    ensures { result ≡ operation_of word.now }
{
    named(&OPERATIONS, word).or(ordered_named(word))
}

fn ordered_named(word: &[u8]) -> Option<Operation>
    ensures { result ≡ atomic_of (ordered word.now) }
{
    let (stem, ordering) = ordered(word);
    atomic_named(stem, ordering)
}

/// The atomic instruction that a word names, once its ending for the ordering is removed.
#[tactic(auto, unfolding(crate::specs::Operations::atomics))]
fn atomic_named(stem: &[u8], ordering: Ordering) -> Option<Operation>
    ensures { result ≡ atomic_of (stem.now, ordering) }
{
    if stem == "lr.w".as_bytes() {
        return Some(Operation::LoadReserved(ordering));
    }
    let access = named(&ATOMICS, stem)?;
    Some(Operation::Atomic(access, ordering))
}

/// The word without its ending `.aqrl`, `.aq` or `.rl`, and the ordering that the ending names. A word without such an
/// ending is returned whole, with neither acquire nor release.
fn ordered(word: &[u8]) -> (&[u8], Ordering)
    ensures { seen_ordered result ≡ ordered word.now }
{
    if let Some(stem) = without(word, ".aqrl") {
        (stem, Ordering { aq: true, rl: true })
    } else if let Some(stem) = without(word, ".aq") {
        (
            stem,
            Ordering {
                aq: true,
                rl: false,
            },
        )
    } else if let Some(stem) = without(word, ".rl") {
        (
            stem,
            Ordering {
                aq: false,
                rl: true,
            },
        )
    } else {
        (
            word,
            Ordering {
                aq: false,
                rl: false,
            },
        )
    }
}

fn without<'a>(word: &'a [u8], suffix: &str) -> Option<&'a [u8]>
    ensures { seen_stem result ≡ without word.now suffix.now }
{
    word.strip_suffix(suffix.as_bytes())
}

impl Upper {
    /// The instruction with these operands.
    pub fn ins(self, rd: Reg, imm: Imm20) -> Ins
        ensures { result ≡ upper_ins self rd imm }
    {
        match self {
            Upper::Lui => Ins::Lui { rd, imm },
            Upper::Auipc => Ins::Auipc { rd, imm },
        }
    }
}

impl Branch {
    /// The instruction with these operands.
    pub fn ins(self, rs1: Reg, rs2: Reg, offset: Off13) -> Ins
        ensures { result ≡ branch_ins self rs1 rs2 offset }
    {
        match self {
            Branch::Beq => Ins::Beq { rs1, rs2, offset },
            Branch::Bne => Ins::Bne { rs1, rs2, offset },
            Branch::Blt => Ins::Blt { rs1, rs2, offset },
            Branch::Bge => Ins::Bge { rs1, rs2, offset },
            Branch::Bltu => Ins::Bltu { rs1, rs2, offset },
            Branch::Bgeu => Ins::Bgeu { rs1, rs2, offset },
        }
    }
}

impl Load {
    /// The instruction with these operands.
    pub fn ins(self, rd: Reg, rs1: Reg, imm: Imm12) -> Ins
        ensures { result ≡ load_ins self rd rs1 imm }
    {
        match self {
            Load::Jalr => Ins::Jalr { rd, rs1, imm },
            Load::Lb => Ins::Lb { rd, rs1, imm },
            Load::Lh => Ins::Lh { rd, rs1, imm },
            Load::Lw => Ins::Lw { rd, rs1, imm },
            Load::Lbu => Ins::Lbu { rd, rs1, imm },
            Load::Lhu => Ins::Lhu { rd, rs1, imm },
        }
    }
}

impl Store {
    /// The instruction with these operands.
    pub fn ins(self, rs1: Reg, rs2: Reg, imm: Imm12) -> Ins
        ensures { result ≡ store_ins self rs1 rs2 imm }
    {
        match self {
            Store::Sb => Ins::Sb { rs1, rs2, imm },
            Store::Sh => Ins::Sh { rs1, rs2, imm },
            Store::Sw => Ins::Sw { rs1, rs2, imm },
        }
    }
}

impl Immediate {
    /// The instruction with these operands.
    pub fn ins(self, rd: Reg, rs1: Reg, imm: Imm12) -> Ins
        ensures { result ≡ immediate_ins self rd rs1 imm }
    {
        match self {
            Immediate::Addi => Ins::Addi { rd, rs1, imm },
            Immediate::Slti => Ins::Slti { rd, rs1, imm },
            Immediate::Sltiu => Ins::Sltiu { rd, rs1, imm },
            Immediate::Xori => Ins::Xori { rd, rs1, imm },
            Immediate::Ori => Ins::Ori { rd, rs1, imm },
            Immediate::Andi => Ins::Andi { rd, rs1, imm },
        }
    }
}

impl Shift {
    /// The instruction with these operands.
    pub fn ins(self, rd: Reg, rs1: Reg, amount: Shamt) -> Ins
        ensures { result ≡ shift_ins self rd rs1 amount }
    {
        match self {
            Shift::Slli => Ins::Slli { rd, rs1, amount },
            Shift::Srli => Ins::Srli { rd, rs1, amount },
            Shift::Srai => Ins::Srai { rd, rs1, amount },
        }
    }
}

impl Register {
    /// The instruction with these operands.
    pub fn ins(self, rd: Reg, rs1: Reg, rs2: Reg) -> Ins
        ensures { result ≡ register_ins self rd rs1 rs2 }
    {
        match self {
            Register::Add => Ins::Add { rd, rs1, rs2 },
            Register::Sub => Ins::Sub { rd, rs1, rs2 },
            Register::Sll => Ins::Sll { rd, rs1, rs2 },
            Register::Slt => Ins::Slt { rd, rs1, rs2 },
            Register::Sltu => Ins::Sltu { rd, rs1, rs2 },
            Register::Xor => Ins::Xor { rd, rs1, rs2 },
            Register::Srl => Ins::Srl { rd, rs1, rs2 },
            Register::Sra => Ins::Sra { rd, rs1, rs2 },
            Register::Or => Ins::Or { rd, rs1, rs2 },
            Register::And => Ins::And { rd, rs1, rs2 },
            Register::Mul => Ins::Mul { rd, rs1, rs2 },
            Register::Mulh => Ins::Mulh { rd, rs1, rs2 },
            Register::Mulhsu => Ins::Mulhsu { rd, rs1, rs2 },
            Register::Mulhu => Ins::Mulhu { rd, rs1, rs2 },
            Register::Div => Ins::Div { rd, rs1, rs2 },
            Register::Divu => Ins::Divu { rd, rs1, rs2 },
            Register::Rem => Ins::Rem { rd, rs1, rs2 },
            Register::Remu => Ins::Remu { rd, rs1, rs2 },
        }
    }
}

impl Whole {
    /// The instruction with these operands.
    pub fn ins(self) -> Ins
        ensures { result ≡ whole_ins self }
    {
        let zero = Reg::new(0);
        match self {
            Whole::Fence => Ins::Fence {
                rd: zero,
                rs1: zero,
                imm: Imm12::new(0xFF),
            },
            Whole::FenceI => Ins::FenceI {
                rd: zero,
                rs1: zero,
                imm: Imm12::new(0),
            },
            Whole::Ecall => Ins::Ecall,
            Whole::Ebreak => Ins::Ebreak,
            Whole::Mret => Ins::Mret,
            Whole::Wfi => Ins::Wfi,
        }
    }
}

impl Csr {
    /// The instruction with these operands.
    pub fn ins(self, rd: Reg, rs1: Reg, csr: CsrNo) -> Ins
        ensures { result ≡ csr_ins self rd rs1 csr }
    {
        match self {
            Csr::Csrrw => Ins::Csrrw { rd, rs1, csr },
            Csr::Csrrs => Ins::Csrrs { rd, rs1, csr },
            Csr::Csrrc => Ins::Csrrc { rd, rs1, csr },
        }
    }
}

impl CsrImmediate {
    /// The instruction with these operands.
    pub fn ins(self, rd: Reg, imm: Imm5, csr: CsrNo) -> Ins
        ensures { result ≡ csr_immediate_ins self rd imm csr }
    {
        match self {
            CsrImmediate::Csrrwi => Ins::Csrrwi { rd, imm, csr },
            CsrImmediate::Csrrsi => Ins::Csrrsi { rd, imm, csr },
            CsrImmediate::Csrrci => Ins::Csrrci { rd, imm, csr },
        }
    }
}

impl Atomic {
    /// The instruction with these operands.
    pub fn ins(self, ordering: Ordering, rd: Reg, rs1: Reg, rs2: Reg) -> Ins
        ensures { result ≡ atomic_ins self ordering rd rs1 rs2 }
    {
        let Ordering { aq, rl } = ordering;
        match self {
            Atomic::ScW => Ins::ScW {
                rd,
                rs1,
                rs2,
                aq,
                rl,
            },
            Atomic::AmoswapW => Ins::AmoswapW {
                rd,
                rs1,
                rs2,
                aq,
                rl,
            },
            Atomic::AmoaddW => Ins::AmoaddW {
                rd,
                rs1,
                rs2,
                aq,
                rl,
            },
            Atomic::AmoxorW => Ins::AmoxorW {
                rd,
                rs1,
                rs2,
                aq,
                rl,
            },
            Atomic::AmoandW => Ins::AmoandW {
                rd,
                rs1,
                rs2,
                aq,
                rl,
            },
            Atomic::AmoorW => Ins::AmoorW {
                rd,
                rs1,
                rs2,
                aq,
                rl,
            },
            Atomic::AmominW => Ins::AmominW {
                rd,
                rs1,
                rs2,
                aq,
                rl,
            },
            Atomic::AmomaxW => Ins::AmomaxW {
                rd,
                rs1,
                rs2,
                aq,
                rl,
            },
            Atomic::AmominuW => Ins::AmominuW {
                rd,
                rs1,
                rs2,
                aq,
                rl,
            },
            Atomic::AmomaxuW => Ins::AmomaxuW {
                rd,
                rs1,
                rs2,
                aq,
                rl,
            },
        }
    }
}
