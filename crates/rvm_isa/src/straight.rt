//! A decoder of the rows that reach registers, RAM and reservations alone, for the straight path of a step. One product
//! gives the index of a word's kind in a table, and one jump leads to the arm of the kind.
//!
//! An arm reads only the fields of its own format. Fields read before the jump would be read at every step.

ghost use Rattle.std.specs.Prelude.{◌≡◌, ◌+◌, ◌*◌, IfSome, Some};
ghost use Rattle.rvm_isa.specs.Fields.{funct3, opcode};
ghost use Rattle.rvm_isa.specs.Straight.{Fits, kinds};
ghost use Rattle.rvm_isa.specs.Table.{decoded};

use crate::decoding::{decode, decode_system};
use crate::ins::Ins;
use crate::read::{
    aq, b_offset, funct5, funct7, i_imm, imm20, j_offset, rd, rl, rs1, rs2, s_imm, shamt,
};

/// What opcode and funct3 of a word say of its row.
#[derive(Clone, Copy)]
enum Kind {
    /// No row, or a row that this decoder leaves to `decode`.
    Other,
    Lui,
    Auipc,
    Jal,
    Jalr,
    Beq,
    Bne,
    Blt,
    Bge,
    Bltu,
    Bgeu,
    Lb,
    Lh,
    Lw,
    Lbu,
    Lhu,
    Sb,
    Sh,
    Sw,
    Addi,
    Slli,
    Slti,
    Sltiu,
    Xori,
    /// Srli or Srai.
    ShiftRightI,
    Ori,
    Andi,
    /// Add, Sub or Mul.
    Add,
    /// Sll or Mulh.
    Sll,
    /// Slt or Mulhsu.
    Slt,
    /// Sltu or Mulhu.
    Sltu,
    /// Xor or Div.
    Xor,
    /// Srl, Sra or Divu.
    ShiftRight,
    /// Or or Rem.
    Or,
    /// And or Remu.
    And,
    Fence,
    FenceI,
    /// Lr, Sc or an AMO.
    Amo,
    /// Wfi, or a row that this decoder leaves to `decode`.
    System,
}

/// The word of WFI, which has no fields.
const WFI: u32 = 0x1050_0073;

/// A kind by its name; `_` is `Other`.
macro_rules! kind {
    (_) => { Kind::Other };
    ($name:ident) => { Kind::$name };
}

/// The table of kinds. Each line has an opcode whose last two bits are 11, with its kinds by funct3. The three opcodes
/// before it have no rows.
macro_rules! kinds_by_opcode {
    ($($a:tt $b:tt $c:tt $d:tt $e:tt $f:tt $g:tt $h:tt;)*) => {
        [$(
            kind!(_), kind!(_), kind!(_), kind!(_), kind!(_), kind!(_), kind!(_), kind!(_),
            kind!(_), kind!(_), kind!(_), kind!(_), kind!(_), kind!(_), kind!(_), kind!(_),
            kind!(_), kind!(_), kind!(_), kind!(_), kind!(_), kind!(_), kind!(_), kind!(_),
            kind!($a), kind!($b), kind!($c), kind!($d), kind!($e), kind!($f), kind!($g), kind!($h),
        )*]
    };
}

/// The kind of each opcode and funct3. A nested table costs each step four host instructions more.
static KINDS: [Kind; 1024] = kinds_by_opcode! {
    Lb Lh Lw _ Lbu Lhu _ _; // LOAD
    _ _ _ _ _ _ _ _;
    _ _ _ _ _ _ _ _;
    Fence FenceI _ _ _ _ _ _; // MISC-MEM
    Addi Slli Slti Sltiu Xori ShiftRightI Ori Andi; // OP-IMM
    Auipc Auipc Auipc Auipc Auipc Auipc Auipc Auipc; // AUIPC
    _ _ _ _ _ _ _ _;
    _ _ _ _ _ _ _ _;
    Sb Sh Sw _ _ _ _ _; // STORE
    _ _ _ _ _ _ _ _;
    _ _ _ _ _ _ _ _;
    _ _ Amo _ _ _ _ _; // AMO
    Add Sll Slt Sltu Xor ShiftRight Or And; // OP
    Lui Lui Lui Lui Lui Lui Lui Lui; // LUI
    _ _ _ _ _ _ _ _;
    _ _ _ _ _ _ _ _;
    _ _ _ _ _ _ _ _;
    _ _ _ _ _ _ _ _;
    _ _ _ _ _ _ _ _;
    _ _ _ _ _ _ _ _;
    _ _ _ _ _ _ _ _;
    _ _ _ _ _ _ _ _;
    _ _ _ _ _ _ _ _;
    _ _ _ _ _ _ _ _;
    Beq Bne _ _ Blt Bge Bltu Bgeu; // BRANCH
    Jalr _ _ _ _ _ _ _; // JALR
    _ _ _ _ _ _ _ _;
    Jal Jal Jal Jal Jal Jal Jal Jal; // JAL
    System _ _ _ _ _ _ _; // SYSTEM
    _ _ _ _ _ _ _ _;
    _ _ _ _ _ _ _ _;
    _ _ _ _ _ _ _ _;
};

/// The instruction of a row with the fields of a word. The first token is the row's format.
macro_rules! ins {
    (R $row:ident $word:ident) => {
        Some(Ins::$row { rd: rd($word), rs1: rs1($word), rs2: rs2($word) })
    };
    (I $row:ident $word:ident) => {
        Some(Ins::$row { rd: rd($word), rs1: rs1($word), imm: i_imm($word) })
    };
    (Shift $row:ident $word:ident) => {
        Some(Ins::$row { rd: rd($word), rs1: rs1($word), amount: shamt($word) })
    };
    (S $row:ident $word:ident) => {
        Some(Ins::$row { rs1: rs1($word), rs2: rs2($word), imm: s_imm($word) })
    };
    (B $row:ident $word:ident) => {
        Some(Ins::$row { rs1: rs1($word), rs2: rs2($word), offset: b_offset($word) })
    };
    (U $row:ident $word:ident) => {
        Some(Ins::$row { rd: rd($word), imm: imm20($word) })
    };
    (J $row:ident $word:ident) => {
        Some(Ins::$row { rd: rd($word), offset: j_offset($word) })
    };
    (Amo $row:ident $word:ident) => {
        Some(Ins::$row {
            rd: rd($word),
            rs1: rs1($word),
            rs2: rs2($word),
            aq: aq($word),
            rl: rl($word),
        })
    };
}

/// The instruction of a word whose kind has several rows, told apart by funct7: the most frequent row comes first.
macro_rules! by_funct7 {
    ($format:ident $word:ident) => { None };
    ($format:ident $word:ident $funct7:literal $row:ident $($rest:tt)*) => {
        if funct7($word) == $funct7 {
            ins!($format $row $word)
        } else {
            by_funct7!($format $word $($rest)*)
        }
    };
}

/// The index of a word's kind in the table. The product moves opcode and funct3 to the top.
#[inline(always)]
#[tactic(auto, using(crate::proofs::Places::moved))]
fn place(word: u32) -> u32
    ensures { result ≡ 8 * opcode word + funct3 word }
{
    (word & 0x707F).wrapping_mul(0x0200_0480) >> 22
}

/// The table, as a function that a contract can name.
#[inline(always)]
#[tactic(auto, unfolding(crate::specs::Straight::kinds))]
fn table() -> &'static [Kind; 1024]
    ensures { result.now ≡ kinds }
{
    &KINDS
}

/// The decoder of rows that reach registers, RAM and reservations alone.
#[derive(Clone, Copy)]
pub struct Decoder {
    table: &'static [Kind],
    ghost whole: { table.now ≡ kinds },
}

impl Decoder {
    /// A decoder for many words. `zero` is a 0 that the compiler does not know, as the content of x0: the table is then
    /// a value that stays in a register, where the address of a constant would be made anew at each word.
    #[inline(always)]
    pub fn new(zero: u32) -> Decoder
        requires { zero ≡ 0 }
    {
        let table: &'static [Kind] = if zero == 0 { table() } else { &[] };
        Decoder { table }
    }

    /// The kind of a word.
    #[inline(always)]
    #[tactic(auto, using(crate::proofs::Places::kind_at, crate::proofs::Places::kinds_length))]
    fn kind_of(self, word: u32) -> Kind
        ensures { Fits result (opcode word) (funct3 word) }
    {
        let place = place(word);
        self.table[place as usize]
    }

    /// Decodes a word whose row reaches registers, RAM and reservations alone; none if it has no such row.
    #[inline(always)]
    #[tactic(auto, using(crate::proofs::Rows::opcodes), unfolding(crate::specs::Table::table, crate::specs::Opcodes::with_opcode))]
    pub fn decode(self, word: u32) -> Option<Ins>
        ensures { IfSome result (λ i. decoded word ≡ Some i) }
    {
        match self.kind_of(word) {
            Kind::Lui => ins!(U Lui word),
            Kind::Auipc => ins!(U Auipc word),
            Kind::Jal => ins!(J Jal word),
            Kind::Jalr => ins!(I Jalr word),
            Kind::Beq => ins!(B Beq word),
            Kind::Bne => ins!(B Bne word),
            Kind::Blt => ins!(B Blt word),
            Kind::Bge => ins!(B Bge word),
            Kind::Bltu => ins!(B Bltu word),
            Kind::Bgeu => ins!(B Bgeu word),
            Kind::Lb => ins!(I Lb word),
            Kind::Lh => ins!(I Lh word),
            Kind::Lw => ins!(I Lw word),
            Kind::Lbu => ins!(I Lbu word),
            Kind::Lhu => ins!(I Lhu word),
            Kind::Sb => ins!(S Sb word),
            Kind::Sh => ins!(S Sh word),
            Kind::Sw => ins!(S Sw word),
            Kind::Addi => ins!(I Addi word),
            Kind::Slli => by_funct7!(Shift word 0x00 Slli),
            Kind::Slti => ins!(I Slti word),
            Kind::Sltiu => ins!(I Sltiu word),
            Kind::Xori => ins!(I Xori word),
            Kind::ShiftRightI => by_funct7!(Shift word 0x00 Srli 0x20 Srai),
            Kind::Ori => ins!(I Ori word),
            Kind::Andi => ins!(I Andi word),
            Kind::Add => by_funct7!(R word 0x00 Add 0x20 Sub 0x01 Mul),
            Kind::Sll => by_funct7!(R word 0x00 Sll 0x01 Mulh),
            Kind::Slt => by_funct7!(R word 0x00 Slt 0x01 Mulhsu),
            Kind::Sltu => by_funct7!(R word 0x00 Sltu 0x01 Mulhu),
            Kind::Xor => by_funct7!(R word 0x00 Xor 0x01 Div),
            Kind::ShiftRight => by_funct7!(R word 0x00 Srl 0x20 Sra 0x01 Divu),
            Kind::Or => by_funct7!(R word 0x00 Or 0x01 Rem),
            Kind::And => by_funct7!(R word 0x00 And 0x01 Remu),
            Kind::Fence => ins!(I Fence word),
            Kind::FenceI => ins!(I FenceI word),
            Kind::Amo => amo(word),
            Kind::System => if word == WFI { Some(Ins::Wfi) } else { None },
            Kind::Other => None,
        }
    }
}

/// Decodes a word as `decode` does, for the end of the straight path: most rows that the path leaves have the opcode
/// SYSTEM, which one test finds.
#[inline(always)]
#[tactic(auto, using(crate::proofs::Rows::opcodes), unfolding(crate::specs::Table::table, crate::specs::Opcodes::with_opcode))]
pub fn decode_at_end(word: u32) -> Option<Ins>
    ensures { result ≡ decoded word }
{
    if word & 0x7F == 0x73 {
        return decode_system(word);
    }
    decode(word)
}

/// The instruction of a word of the opcode AMO.
#[inline(always)]
#[tactic(auto, using(crate::proofs::Rows::opcodes), unfolding(crate::specs::Table::table, crate::specs::Opcodes::with_opcode))]
fn amo(word: u32) -> Option<Ins>
    requires opcode { opcode word ≡ 0x2F }
    requires funct3 { funct3 word ≡ 2 }
    ensures { IfSome result (λ i. decoded word ≡ Some i) }
{
    match funct5(word) {
        0x02 if rs2(word).bits() == 0 => Some(Ins::LrW {
            rd: rd(word),
            rs1: rs1(word),
            aq: aq(word),
            rl: rl(word),
        }),
        0x03 => ins!(Amo ScW word),
        0x01 => ins!(Amo AmoswapW word),
        0x00 => ins!(Amo AmoaddW word),
        0x04 => ins!(Amo AmoxorW word),
        0x0C => ins!(Amo AmoandW word),
        0x08 => ins!(Amo AmoorW word),
        0x10 => ins!(Amo AmominW word),
        0x14 => ins!(Amo AmomaxW word),
        0x18 => ins!(Amo AmominuW word),
        0x1C => ins!(Amo AmomaxuW word),
        _ => None,
    }
}
