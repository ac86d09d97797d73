//! The first line of a journal.

ghost use Rattle.std.specs.Prelude.{◌≡◌, IfOk, IfSome, OnOk, Some};
ghost use Rattle.std.specs.Io.KnownBytes.{Appends};
ghost use Rattle.hex.specs.Hex.{decode_sized};
ghost use Rattle.sha2.specs.Sha256.{sha256};
ghost use Rattle.rvm_journal.specs.Headers.{IsRanged, IsSized, digest_if, form_of, guest_in, guest_text, header_of, image_in, no_guest_in, text_of};

use crate::numbers::{field, ranged};
use hex::decode_to_slice;
use rvm_debug::Words;
use rvm_refusal::LinkFault;
use sha2::{Digest, Sha256};
use std::alloc::Global;
use std::io::Write;

/// What the first line of a journal tells: whose journal it is, and with which guest the host began.
#[derive(Clone, Copy, Debug, PartialEq, Eq)]
pub struct Header {
    /// The number of hosts of the world, 2 to 8.
    pub hosts: u8,
    /// The number of the host, from 0.
    pub host: u8,
    /// The number that the host's process drew at its start.
    pub process: u64,
    /// The number of the world, which the process of the host with the image draws; 0 for other hosts.
    pub world: u64,
    /// The guest with which the host began, if it had one.
    pub guest: Option<Image>,
}

/// The guest with which a host began: its board, and the file of its image.
#[derive(Clone, Copy, Debug, PartialEq, Eq)]
pub struct Image {
    /// Whether the image is plain bytes, and not an ELF file.
    pub raw: bool,
    /// The number of harts, 1 to 8.
    pub harts: u32,
    /// The number of pages of RAM, 1 to 4096.
    pub pages: u32,
    /// The SHA-256 of the bytes of the file.
    pub digest: [u8; 32],
}

impl Image {
    /// The guest of a board with so many harts and pages, whose image is a file with these bytes.
    pub fn of(raw: bool, harts: u32, pages: u32, bytes: &[u8]) -> Image
        ensures digest { result.digest ≡ sha256 bytes.now }
        ensures board { (result.raw ≡ raw) × (result.harts ≡ harts) × (result.pages ≡ pages) }
    {
        Image {
            raw,
            harts,
            pages,
            digest: Sha256::digest(bytes),
        }
    }
}

impl Header {
    /// Reads the text of a header, without the digest before it and without its line feed. None if it tells no header.
    #[tactic(auto, unfolding(crate::specs::Headers::header_of))]
    pub fn read(text: &[u8]) -> Option<Header>
        ensures header { result ≡ header_of text.now }
        ensures range { IfSome result IsRanged }
    {
        let mut words = Words::new(text);
        let _version = field(&mut words, b"journal", 1, 1)?;
        let host = field(&mut words, b"host", 0, 7)?;
        let hosts = field(&mut words, b"of", 2, 8)?;
        let process = field(&mut words, b"process", 0, u64::MAX)?;
        let world = field(&mut words, b"world", 0, u64::MAX)?;
        let guest = guest_in(words)?;
        if host >= hosts {
            return None;
        }
        Some(Header {
            hosts: hosts as u8,
            host: host as u8,
            process,
            world,
            guest,
        })
    }
}

/// The guest that the last words of a header name.
fn guest_in(words: Words) -> Option<Option<Image>>
    ensures guest { result ≡ guest_in words.entry }
    ensures size { IfSome result (λ guest. IfSome guest IsSized) }
{
    let mut words = words;
    let word = words.next()?;
    if word == b"guest".as_slice() {
        return Some(Some(image_in(words)?));
    }
    if word == b"without".as_slice() {
        return no_guest_in(words);
    }
    None
}

/// No guest, by the only word after `without`.
fn no_guest_in(words: Words) -> Option<Option<Image>>
    ensures guest { result ≡ no_guest_in words.entry }
    ensures size { IfSome result (λ guest. IfSome guest IsSized) }
{
    let mut words = words;
    let word = words.next()?;
    if word == b"guest".as_slice() && words.is_empty() {
        Some(None)
    } else {
        None
    }
}

/// The image that words name: its form, the number of harts and of pages, and its digest.
fn image_in(words: Words) -> Option<Image>
    ensures image { result ≡ image_in words.entry }
    ensures size { IfSome result IsSized }
{
    let mut words = words;
    let form = words.next()?;
    let harts = words.next()?;
    let pages = words.next()?;
    let digest = words.next()?;
    if !words.is_empty() {
        return None;
    }
    Some(Image {
        raw: form_of(form)?,
        harts: ranged(harts, 1, 8)? as u32,
        pages: ranged(pages, 1, 4096)? as u32,
        digest: digest_of(digest)?,
    })
}

/// Whether the word of a form says that an image is plain bytes.
fn form_of(word: &[u8]) -> Option<bool>
    ensures { result ≡ form_of word.now }
{
    if word == b"raw".as_slice() {
        return Some(true);
    }
    if word == b"elf".as_slice() {
        return Some(false);
    }
    None
}

/// The digest that a word spells in hexadecimal.
fn digest_of(word: &[u8]) -> Option<[u8; 32]>
    ensures { result ≡ digest_if (decode_sized word.now 32) }
{
    let mut digest = [0; 32];
    match decode_to_slice(word, &mut digest) {
        Ok(()) => Some(digest),
        Err(_) => None,
    }
}

/// The text of a header, without a line feed: `journal 1`, the number of the host and of all hosts, the numbers of the
/// process and of the world, and the guest.
pub(crate) fn header_text(alloc: Global, header: &Header) -> Result<Vec<u8>, LinkFault>
    ensures { IfOk result (λ text. text.items ≡ text_of header.now) }
{
    let mut text = Vec::new(alloc);
    write!(
        text,
        "journal 1 host {} of {} process {} world {}",
        header.host, header.hosts, header.process, header.world
    )?;
    write_guest(&mut text, &header.guest)?;
    Ok(text)
}

/// Writes the guest with which a host began.
fn write_guest<W: Write>(text: &mut W, guest: &Option<Image>) -> Result<(), LinkFault>
    ensures { OnOk result (Appends (W.contents text.old) (W.contents text.new) (guest_text guest.now)) }
{
    match guest {
        Some(image) => write_image(text, image)?,
        None => write!(text, " without guest")?,
    }
    Ok(())
}

/// Writes the image with which a host began.
fn write_image<W: Write>(text: &mut W, image: &Image) -> Result<(), LinkFault>
    ensures { OnOk result (Appends (W.contents text.old) (W.contents text.new) (guest_text (Some image.now))) }
{
    let form = if image.raw { "raw" } else { "elf" };
    write!(text, " guest {form} {} {} ", image.harts, image.pages)?;
    rvm_text::write_hex(text, &image.digest)?;
    Ok(())
}
