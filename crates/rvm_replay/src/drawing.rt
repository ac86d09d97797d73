//! What is drawn of an order in its chart, event by event.

ghost use Rattle.std.specs.Prelude.{◌≡◌, ◌++◌, Option, OnOk};
ghost use Rattle.std.specs.Io.KnownBytes.{Appends};
ghost use Rattle.rvm_core.specs.declared.event.Event.TheVariants.{At};
ghost use Rattle.rvm_message.specs.declared.event.Command.TheVariants.{Board};
ghost use Rattle.rvm_replay.specs.Charts.{after, after_piece, after_turns, bar_at, bar_left, bar_text, bar_title, box_text, copies_at, copies_left, copies_of, copies_out, copies_text, copies_title, drawn, mark_at, mark_text, piece_drawn, rest_drawn, start, turns_drawn};

use rvm_audit::Piece;
use rvm_board::BoardEvent;
use rvm_core::Event;
use rvm_message::Command;
use rvm_refusal::LinkFault;
use std::io::Write;

/// The colours of what was asked of a move.
const BEGIN_COLOUR: &str = "#228833";

const RESEND_COLOUR: &str = "#aa3377";

const ABORT_COLOUR: &str = "#ee6677";

/// What of an order is not drawn yet, up to some event.
#[derive(Clone, Copy)]
pub(crate) struct Drawing {
    /// How many turns hosts were asked for. A number that is too large stays at 2^64 - 1.
    pub turn: u64,
    /// The bar of the last turns, if there were turns.
    bar: Option<Bar>,
    /// The last copies, if a move goes on.
    copies: Option<Copies>,
}

/// Consecutive turns that one host was asked for.
#[derive(Clone, Copy)]
struct Bar {
    host: u8,
    /// The number of the first turn.
    from: u64,
}

/// Copies that a host was asked for in one move.
#[derive(Clone, Copy)]
struct Copies {
    host: u8,
    /// The number of the turn before which the first copy came.
    from: u64,
    /// The number of the turn before which the last copy came.
    until: u64,
    /// How many there were. A number that is too large stays at 2^64 - 1.
    count: u64,
}

impl Drawing {
    /// Nothing is drawn yet.
    pub(crate) fn start() -> Drawing
        ensures { result ≡ start }
    {
        Drawing {
            turn: 0,
            bar: None,
            copies: None,
        }
    }

    /// This drawing after one more piece of an order.
    pub(crate) fn after_piece(self, piece: &Piece) -> Drawing
        ensures { result ≡ after_piece self piece.now }
    {
        match piece {
            Piece::Event(event) => self.after(event),
            Piece::Turns(turns) => self.after_turns(turns.host, turns.turns),
        }
    }

    /// This drawing after one more event.
    fn after(self, event: &Event) -> Drawing
        ensures { result ≡ after self event.now }
    {
        match event {
            Event::At(host, command) => self.after_command(*host, command),
            Event::Deliver(_place) => self,
        }
    }

    /// This drawing after a host was given a command.
    fn after_command(self, host: u8, command: &Command) -> Drawing
        ensures { result ≡ after self (At host command.now) }
    {
        match command {
            Command::Board(event) => self.after_board(host, event),
            Command::Copy => self.with_copies(Some(copies_at(host, self.turn, self.copies))),
            Command::Begin { .. } | Command::Abort => self.with_copies(None),
            Command::Resend => self,
        }
    }

    /// This drawing after the guest of a host was given an event.
    fn after_board(self, host: u8, event: &BoardEvent) -> Drawing
        ensures { result ≡ after self (At host (Board event.now)) }
    {
        match event {
            BoardEvent::Step(_hart) => self.after_turns(host, 1),
            _ => self,
        }
    }

    /// This drawing after more turns of a host.
    fn after_turns(self, host: u8, turns: u32) -> Drawing
        ensures { result ≡ after_turns self host turns }
    {
        Drawing {
            turn: self.turn.saturating_add(u64::from(turns)),
            bar: Some(bar_at(host, self.turn, self.bar)),
            copies: copies_of(host, self.copies),
        }
    }

    /// This drawing with these copies in place of those that it has.
    fn with_copies(self, copies: Option<Copies>) -> Drawing
        ensures { result ≡ record self { copies = copies } }
    {
        Drawing {
            turn: self.turn,
            bar: self.bar,
            copies,
        }
    }

    /// Writes what is drawn once a piece of an order comes.
    pub(crate) fn write_piece<O: Write>(
        self,
        piece: &Piece,
        output: &mut O,
    ) -> Result<(), LinkFault>
        ensures { OnOk result (Appends (O.contents output.old) (O.contents output.new) (piece_drawn self piece.now)) }
    {
        match piece {
            Piece::Event(event) => self.write(event, output),
            Piece::Turns(turns) => self.write_turns(turns.host, output),
        }
    }

    /// Writes what is drawn once an event comes: what ended with it, and the mark of what it asks for.
    fn write<O: Write>(self, event: &Event, output: &mut O) -> Result<(), LinkFault>
        ensures { OnOk result (Appends (O.contents output.old) (O.contents output.new) (drawn self event.now)) }
    {
        match event {
            Event::At(host, command) => self.write_command(*host, command, output),
            Event::Deliver(_place) => Ok(()),
        }
    }

    /// Writes what is drawn once a host is given a command.
    fn write_command<O: Write>(
        self,
        host: u8,
        command: &Command,
        output: &mut O,
    ) -> Result<(), LinkFault>
        ensures { OnOk result (Appends (O.contents output.old) (O.contents output.new) (drawn self (At host command.now))) }
    {
        match command {
            Command::Board(event) => self.write_board(host, event, output),
            Command::Copy => write_copies_left(host, self.copies, output),
            Command::Begin { .. } => {
                write_copies_out(self.copies, output)?;
                write_mark(host, self.turn, BEGIN_COLOUR, "begin", output)
            }
            Command::Abort => {
                write_copies_out(self.copies, output)?;
                write_mark(host, self.turn, ABORT_COLOUR, "abort", output)
            }
            Command::Resend => write_mark(host, self.turn, RESEND_COLOUR, "resend", output),
        }
    }

    /// Writes what is drawn once the guest of a host is given an event.
    fn write_board<O: Write>(
        self,
        host: u8,
        event: &BoardEvent,
        output: &mut O,
    ) -> Result<(), LinkFault>
        ensures { OnOk result (Appends (O.contents output.old) (O.contents output.new)
            (drawn self (At host (Board event.now)))) }
    {
        match event {
            BoardEvent::Step(_hart) => self.write_turns(host, output),
            _ => Ok(()),
        }
    }

    /// Writes what is drawn once a host makes turns: what those of other hosts ended with.
    fn write_turns<O: Write>(self, host: u8, output: &mut O) -> Result<(), LinkFault>
        ensures { OnOk result (Appends (O.contents output.old) (O.contents output.new) (turns_drawn self host)) }
    {
        write_bar_left(host, self.turn, self.bar, output)?;
        write_copies_left(host, self.copies, output)
    }

    /// Writes what is drawn after the last event.
    pub(crate) fn write_rest<O: Write>(self, output: &mut O) -> Result<(), LinkFault>
        ensures { OnOk result (Appends (O.contents output.old) (O.contents output.new) (rest_drawn self)) }
    {
        if let Some(bar) = self.bar {
            write_bar(self.turn, bar, output)?;
        }
        write_copies_out(self.copies, output)
    }
}

/// The bar of a host's turns, which goes on with this one or begins with it.
fn bar_at(host: u8, turn: u64, bar: Option<Bar>) -> Bar
    ensures { result ≡ bar_at host turn bar }
{
    match bar {
        Some(bar) if bar.host == host => bar,
        _ => Bar { host, from: turn },
    }
}

/// The copies that a host was asked for, with one more.
fn copies_at(host: u8, turn: u64, copies: Option<Copies>) -> Copies
    ensures { result ≡ copies_at host turn copies }
{
    match copies {
        Some(copies) if copies.host == host => Copies {
            host,
            from: copies.from,
            until: turn,
            count: copies.count.saturating_add(1),
        },
        _ => Copies {
            host,
            from: turn,
            until: turn,
            count: 1,
        },
    }
}

/// The copies that this host was asked for, and those of no other.
fn copies_of(host: u8, copies: Option<Copies>) -> Option<Copies>
    ensures { result ≡ copies_of host copies }
{
    match copies {
        Some(copies) if copies.host == host => Some(copies),
        _ => None,
    }
}

/// Writes a bar, if it is of another host than this one.
fn write_bar_left<O: Write>(
    host: u8,
    until: u64,
    bar: Option<Bar>,
    output: &mut O,
) -> Result<(), LinkFault>
    ensures { OnOk result (Appends (O.contents output.old) (O.contents output.new) (bar_left host until bar)) }
{
    match bar {
        Some(bar) if bar.host != host => write_bar(until, bar, output),
        _ => Ok(()),
    }
}

/// Writes copies, if another host than this one was asked for them.
fn write_copies_left<O: Write>(
    host: u8,
    copies: Option<Copies>,
    output: &mut O,
) -> Result<(), LinkFault>
    ensures { OnOk result (Appends (O.contents output.old) (O.contents output.new) (copies_left host copies)) }
{
    match copies {
        Some(copies) if copies.host != host => write_copies(copies, output),
        _ => Ok(()),
    }
}

/// Writes copies, if there are some.
fn write_copies_out<O: Write>(copies: Option<Copies>, output: &mut O) -> Result<(), LinkFault>
    ensures { OnOk result (Appends (O.contents output.old) (O.contents output.new) (copies_out copies)) }
{
    match copies {
        Some(copies) => write_copies(copies, output),
        None => Ok(()),
    }
}

/// Writes a bar of turns, up to this one.
fn write_bar<O: Write>(until: u64, bar: Bar, output: &mut O) -> Result<(), LinkFault>
    ensures { OnOk result (Appends (O.contents output.old) (O.contents output.new) (bar_text until bar)) }
{
    let y = 40 * u32::from(bar.host) + 16;
    write_box(bar.from, until, y, 16, output)?;
    write_bar_title(bar.from, until, output)
}

/// Writes the colour of a bar, and from which turn to which it goes.
#[tactic(auto, unfolding(crate::specs::Charts::bar_title))]
fn write_bar_title<O: Write>(from: u64, until: u64, output: &mut O) -> Result<(), LinkFault>
    ensures { OnOk result (Appends (O.contents output.old) (O.contents output.new) (bar_title from until)) }
{
    writeln!(
        output,
        "fill=\"#4477aa\" stroke=\"#4477aa\"><title>turns {from} to {until}</title></path>"
    )?;
    Ok(())
}

/// Writes copies, above the turns that were made between them.
fn write_copies<O: Write>(copies: Copies, output: &mut O) -> Result<(), LinkFault>
    ensures { OnOk result (Appends (O.contents output.old) (O.contents output.new) (copies_text copies)) }
{
    let y = 40 * u32::from(copies.host) + 8;
    write_box(copies.from, copies.until, y, 8, output)?;
    write_copies_title(copies.count, output)
}

/// Writes the colour of copies, and how many there are.
#[tactic(auto, unfolding(crate::specs::Charts::copies_title))]
fn write_copies_title<O: Write>(count: u64, output: &mut O) -> Result<(), LinkFault>
    ensures { OnOk result (Appends (O.contents output.old) (O.contents output.new) (copies_title count)) }
{
    writeln!(
        output,
        "fill=\"#ccbb44\" stroke=\"#ccbb44\"><title>{count} copies</title></path>"
    )?;
    Ok(())
}

/// Writes a box from one turn to another, of this height and with its top at `y`, up to its colour.
#[tactic(auto, unfolding(crate::specs::Charts::box_text))]
fn write_box<O: Write>(
    from: u64,
    until: u64,
    y: u32,
    height: u32,
    output: &mut O,
) -> Result<(), LinkFault>
    ensures { OnOk result (Appends (O.contents output.old) (O.contents output.new) (box_text from until y height)) }
{
    write!(
        output,
        "<path d=\"M{from} {y}H{until}v{height}H{from}z\" vector-effect=\"non-scaling-stroke\" "
    )?;
    Ok(())
}

/// Writes a mark at a turn in the lane of a host, of this colour, with what was asked.
fn write_mark<O: Write>(
    host: u8,
    turn: u64,
    colour: &str,
    asked: &str,
    output: &mut O,
) -> Result<(), LinkFault>
    ensures { OnOk result (Appends (O.contents output.old) (O.contents output.new)
        (mark_text host turn colour.now asked.now)) }
{
    write_mark_at(turn, 40 * u32::from(host) + 4, colour, asked, output)
}

/// Writes a mark at a turn, with its top at `y`, of this colour, with what was asked as its title.
#[tactic(auto, unfolding(crate::specs::Charts::mark_at))]
fn write_mark_at<O: Write>(
    turn: u64,
    y: u32,
    colour: &str,
    asked: &str,
    output: &mut O,
) -> Result<(), LinkFault>
    ensures { OnOk result (Appends (O.contents output.old) (O.contents output.new) (mark_at turn y colour.now asked.now)) }
{
    writeln!(
        output,
        "<path d=\"M{turn} {y}v32\" stroke=\"{colour}\" vector-effect=\"non-scaling-stroke\"><title>{asked}</title></path>"
    )?;
    Ok(())
}
