//! The chart of an order: which host the guest was at, turn by turn, and what was asked of its moves.

ghost use Rattle.std.specs.Prelude.{◌≡◌, ◌++◌, ◌+◌, ◌*◌, ◌<◌, ◌≤◌, OnOk, max};
ghost use Rattle.std.specs.Io.KnownBytes.{Appends};
ghost use Rattle.rvm_replay.specs.Charts.{after_all, all_drawn, chart_begin, chart_end, chart_of, lane_place, lane_text, lanes_begin, lanes_text, start};

use crate::drawing::Drawing;
use rvm_audit::Order;
use rvm_refusal::LinkFault;
use std::io::Write;

/// Writes the chart of an order of the journals of this many hosts, as a picture in SVG.
pub(crate) fn write_chart<O: Write>(
    hosts: u8,
    order: &Order,
    output: &mut O,
) -> Result<(), LinkFault>
    requires { hosts ≤ 8 }
    ensures { OnOk result (Appends (O.contents output.old) (O.contents output.new) (chart_of hosts order.now)) }
{
    let last = last_of(order);
    write_begin(hosts, last.turn, output)?;
    write_events(order, output)?;
    last.write_rest(output)?;
    write_end(40 * u32::from(hosts) + 16, last.turn, output)
}

/// The drawing after all events of an order.
#[tactic(auto, using(crate::proofs::Charting::one_more, crate::proofs::Charting::fewer_left))]
fn last_of(order: &Order) -> Drawing
    ensures { result ≡ after_all start order.now }
{
    let mut drawing = Drawing::start();
    let mut left = order.events();
    while let Some(piece) = left.next_piece() {
        drawing = drawing.after_piece(&piece);
    }
    drawing
}

/// Writes what is drawn as the events of an order come.
#[tactic(auto, using(crate::proofs::Charting::none_drawn, crate::proofs::Charting::drawn_more, crate::proofs::Charting::all_are_drawn, crate::proofs::Charting::fewer_left))]
fn write_events<O: Write>(order: &Order, output: &mut O) -> Result<(), LinkFault>
    ensures { OnOk result (Appends (O.contents output.old) (O.contents output.new) (all_drawn start order.now)) }
{
    let mut drawing = Drawing::start();
    let mut left = order.events();
    while let Some(piece) = left.next_piece() {
        drawing.write_piece(&piece, output)?;
        drawing = drawing.after_piece(&piece);
    }
    Ok(())
}

/// Writes how a chart of this many hosts begins, in which this many turns have room.
fn write_begin<O: Write>(hosts: u8, turns: u64, output: &mut O) -> Result<(), LinkFault>
    requires { hosts ≤ 8 }
    ensures { OnOk result (Appends (O.contents output.old) (O.contents output.new)
        (chart_begin (40 * hosts + 24) ++ lanes_text hosts ++ lanes_begin (40 * hosts) (max turns 1))) }
{
    let height = 40 * u32::from(hosts);
    write_chart_begin(height + 24, output)?;
    write_lanes(hosts, output)?;
    write_lanes_begin(height, turns.max(1), output)
}

/// Writes how a chart of this height begins.
#[tactic(auto, unfolding(crate::specs::Charts::chart_begin))]
fn write_chart_begin<O: Write>(height: u32, output: &mut O) -> Result<(), LinkFault>
    ensures { OnOk result (Appends (O.contents output.old) (O.contents output.new) (chart_begin height)) }
{
    writeln!(
        output,
        "<svg xmlns=\"http://www.w3.org/2000/svg\" width=\"1000\" height=\"{height}\" font-family=\"sans-serif\" font-size=\"14\">"
    )?;
    Ok(())
}

/// Writes the names of the lanes of this many hosts.
fn write_lanes<O: Write>(hosts: u8, output: &mut O) -> Result<(), LinkFault>
    requires { hosts ≤ 8 }
    ensures { OnOk result (Appends (O.contents output.old) (O.contents output.new) (lanes_text hosts)) }
{
    for host in 0..hosts {
        write_lane(host, output)?;
    }
    Ok(())
}

/// Writes the name of a host's lane.
fn write_lane<O: Write>(host: u8, output: &mut O) -> Result<(), LinkFault>
    requires { host < 8 }
    ensures { OnOk result (Appends (O.contents output.old) (O.contents output.new) (lane_text host)) }
{
    let letter = [b'A' + host];
    write_lane_place(40 * u32::from(host) + 29, output)?;
    output.write_all(&letter)?;
    output.write_all(b"</text>\n")?;
    Ok(())
}

/// Writes where the name of a lane stands, with its baseline at `y`.
#[tactic(auto, unfolding(crate::specs::Charts::lane_place))]
fn write_lane_place<O: Write>(y: u32, output: &mut O) -> Result<(), LinkFault>
    ensures { OnOk result (Appends (O.contents output.old) (O.contents output.new) (lane_place y)) }
{
    write!(output, "<text x=\"4\" y=\"{y}\">")?;
    Ok(())
}

/// Writes how the lanes of a chart begin, which have this height together, and room for this many turns.
#[tactic(auto, unfolding(crate::specs::Charts::lanes_begin))]
fn write_lanes_begin<O: Write>(height: u32, turns: u64, output: &mut O) -> Result<(), LinkFault>
    ensures { OnOk result (Appends (O.contents output.old) (O.contents output.new) (lanes_begin height turns)) }
{
    writeln!(
        output,
        "<svg x=\"24\" width=\"960\" height=\"{height}\" viewBox=\"0 0 {turns} {height}\" preserveAspectRatio=\"none\">"
    )?;
    Ok(())
}

/// Writes how the lanes of a chart and the chart end, with the number of turns at `y`.
#[tactic(auto, unfolding(crate::specs::Charts::chart_end))]
fn write_end<O: Write>(y: u32, turns: u64, output: &mut O) -> Result<(), LinkFault>
    ensures { OnOk result (Appends (O.contents output.old) (O.contents output.new) (chart_end y turns)) }
{
    writeln!(
        output,
        "</svg>\n<text x=\"24\" y=\"{y}\">turns 0 to {turns}</text>\n</svg>"
    )?;
    Ok(())
}
