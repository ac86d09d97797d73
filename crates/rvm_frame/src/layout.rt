//! The layout of each kind of body.

ghost use Rattle.std.specs.Prelude.{◌≡◌, ◌++◌, true};
ghost use Rattle.rvm_frame.specs.Grammar.{body_fits, body_of};
ghost use Rattle.rvm_frame.specs.Layout.{joined};

use crate::fields::Fields;
use crate::frame::Frame;

/// The parts of a body, in their order: its fields of fixed size, the page numbers of Lost, the
/// copy numbers of State, and all other bytes.
#[derive(Drop)]
pub struct Body<'a> {
    pub(crate) fields: Fields,
    pub(crate) page_numbers: &'a [u16],
    pub(crate) copy_numbers: &'a [u32],
    pub(crate) bytes: &'a [u8],
}

/// A body of fields and the bytes after them.
#[tactic(auto)]
fn fields_and_bytes(fields: Fields, bytes: &[u8]) -> Body<'_>
    ensures { joined result.fields result.page_numbers.now result.copy_numbers.now result.bytes.now
        ≡ fields ++ bytes.now }
{
    Body {
        fields,
        page_numbers: &[],
        copy_numbers: &[],
        bytes,
    }
}

/// The body of a frame, in parts.
pub(crate) fn layout(frame: &Frame) -> Body<'_>
    requires { body_fits frame.now ≡ true }
    ensures { joined result.fields result.page_numbers.now result.copy_numbers.now result.bytes.now
        ≡ body_of frame.now }
{
    let fields = Fields::new();
    match frame {
        Frame::Hello { version } => fields_and_bytes(fields.with_u32(*version), &[]),
        Frame::Offer { pages, harts, .. } => {
            fields_and_bytes(fields.with_u16(*pages).with_u8(*harts), &[])
        }
        Frame::Refuse { limit, .. } => fields_and_bytes(fields.with_u16(*limit), &[]),
        Frame::Page {
            page,
            copy_number,
            bytes,
            ..
        } => fields_and_bytes(
            fields.with_u16(*page).with_u32(*copy_number),
            bytes.as_array(),
        ),
        Frame::RoundEnd {
            round,
            sent,
            skipped,
            left,
            ..
        } => {
            let fields = fields.with_u16(*round).with_u16(*sent);
            fields_and_bytes(fields.with_u16(*skipped).with_u16(*left), &[])
        }
        Frame::Lost { pages, .. } => Body {
            fields: fields.with_u16(pages.as_slice().len() as u16),
            page_numbers: pages.as_slice(),
            copy_numbers: &[],
            bytes: &[],
        },
        Frame::State {
            copy_numbers,
            state,
            ..
        } => Body {
            fields: fields.with_u16(copy_numbers.as_slice().len() as u16),
            page_numbers: &[],
            copy_numbers: copy_numbers.as_slice(),
            bytes: state.as_slice(),
        },
        Frame::Zero {
            page,
            copy_number,
            ..
        } => fields_and_bytes(fields.with_u16(*page).with_u32(*copy_number), &[]),
        Frame::Part {
            stamp,
            part,
            parts,
            bytes,
            ..
        } => fields_and_bytes(
            fields.with_u32(*stamp).with_u8(*part).with_u8(*parts),
            bytes.as_slice(),
        ),
        Frame::Accept { .. }
        | Frame::Ready { .. }
        | Frame::Go { .. }
        | Frame::Started { .. }
        | Frame::Abort { .. } => fields_and_bytes(fields, &[]),
    }
}
