//! Worked cases of the debugged board over both kinds of memory: what a script answers.

use rvm_asm::assemble;
use rvm_board::{Board, Debugged};
use rvm_debug::run_script;
use rvm_elf::load;
use rvm_hart::RAM_BASE;
use rvm_mem::{FlatMemory, PagedMemory};
use rvm_paged::PagedRam;
use std::alloc::Global;
use std::process::Abort;
use std::test::Fail;

/// A guest's text, the script of a debugger, and the answers to it.
struct Case {
    text: &'static str,
    script: &'static str,
    answers: &'static str,
}

/// Writes a word, a half and a byte on both sides of a page's end, and then what it loads there: a byte
/// with its sign, a half without one, and the word before an atomic change.
const ACCESSES: &str = "
    li t0, 0x80001000
    li t1, 0x80FF7F01
    sw t1, -4(t0)
    sh t1, 0(t0)
    sb t1, 2(t0)
    lb t2, -2(t0)
    sw t2, 4(t0)
    lhu t2, -2(t0)
    sw t2, 8(t0)
    addi t1, t0, 8
    amoadd.w t2, t0, (t1)
    sw t2, 12(t0)
";

/// lr.w t0, (a0); sc.w t1, t2, (a0); sw t2, 0(a0). By LLVM's assembler.
const CONTENDED: &str = ".word 0x100522AF, 0x1875232F, 0x00752023\n";

static CASES: [Case; 4] = [
    Case {
        text: ACCESSES,
        script: "step 0 13\nmem 0x80000FFC 20\n",
        answers: "step 0 13: retired\n80000ffc: 017fff80017f0100ffffffffff900080\n\
            8000100c: ff800000\n",
    },
    Case {
        text: CONTENDED,
        script: "reg 0 a0 0x80000100\nreg 1 a0 0x80000100\nreg 0 t2 1\nreg 1 t2 2\n\
            reg 1 pc 0x80000008\nstep 0\nstep 1\nstep 0\nmem 0x80000100 4\n",
        answers: "done\ndone\ndone\ndone\ndone\nstep 0 1: retired\nstep 1 1: retired\n\
            step 0 1: retired\n80000100: 02000000\n",
    },
    Case {
        text: CONTENDED,
        script: "reg 0 a0 0x80000100\nreg 0 t2 1\nstep 0 2\nmem 0x80000100 4\n",
        answers: "done\ndone\nstep 0 2: retired\n80000100: 01000000\n",
    },
    Case {
        text: "nop\n",
        script: "poke 0x80000FFF 0102\nmem 0x80000FFE 4\nmem 0x80001FFF 2\nreg 0 pc 0x80002000\n\
            step 0\n",
        answers: "done\n80000ffe: 00010200\nrefused 2 OutOfRange\ndone\nstep 0 1: trapped 1\n",
    },
];

#[test]
fn worked_cases_hold_over_both_memories(rt: HostRuntime) -> Result<(), Fail> {
    for case in CASES.iter() {
        assert_case::<FlatMemory>(&rt, rt.alloc(), case)?;
        assert_case::<PagedRam>(&rt, rt.alloc(), case)?;
    }
    Ok(())
}

/// Asserts the answers to a script over a board of two harts and two pages.
fn assert_case<M: PagedMemory + Drop>(
    rt: &impl Abort,
    alloc: Global,
    case: &Case,
) -> Result<(), Fail> {
    let image = assemble(alloc, case.text)?;
    let mut board = match Board::new(alloc, 2, M::zeroed(alloc, 2)?, RAM_BASE) {
        Ok(board) => board,
        Err((error, _)) => return Err(Fail::from(error)),
    };
    load(&image, &mut board)?;
    let mut guest = Debugged::new(board);
    let mut answers = Vec::new(alloc);
    run_script(alloc, &mut guest, &mut case.script.as_bytes(), &mut answers)?;
    assert_eq!(rt;
        answers.as_slice(),
        case.answers.as_bytes(),
        "{}",
        case.script
    );
    Ok(())
}
