//! What holds of every line, and of every text.

ghost use Rattle.std.specs.Prelude.{◌≡◌, ℕ, List, Ok};
ghost use Rattle.rvm_text.specs.Lexemes.{Lexeme};
ghost use Rattle.rvm_asm.specs.Assembly.{HasOneAssembly};
ghost use Rattle.rvm_asm.specs.Contents.{bytes_at};
ghost use Rattle.rvm_asm.specs.Laws.{EndAt};
ghost use Rattle.rvm_asm.specs.Refusals.{ImagesHaveNoFault, SizesHaveNoFault};
ghost use Rattle.rvm_asm.specs.Statements.{next_place};
ghost use Rattle.rvm_asm.specs.Values.{Names};

/// If a line has any bytes, they end where the next line stands, at most at 2^32.
pub fn a_lines_bytes_end_where_the_next_line_stands()
    ensures { (names : Names) (place after : ℕ) (statement : List Lexeme) (bytes : List ℕ)
        → next_place names place statement ≡ Ok after
        → bytes_at names place statement ≡ Ok bytes → EndAt place after bytes }
{}

/// A text has at most one assembly.
pub fn a_text_has_one_assembly()
    ensures { (text : List ℕ) → HasOneAssembly text }
{}

/// No line of a text that has an image, or that is refused for its size, has a fault.
pub fn faults_come_first()
    ensures image { (text : List ℕ) → ImagesHaveNoFault text }
    ensures size { (text : List ℕ) → SizesHaveNoFault text }
{}
