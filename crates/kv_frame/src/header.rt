ghost use Rattle.std.specs.Prelude.{◌≡◌, ◌≢◌, MatchOption, option_map};
ghost use Rattle.kv_frame.specs.declared.frame.Magic.{Magic};
ghost use Rattle.kv_frame.specs.Grammar.{magic_byte, IsOfSide};
ghost use Rattle.kv_frame.specs.Reading.{front_at, middle_at, back_at, fields_at, header_from, ReadsHeader};

use crate::frame::{
    BODY_LIMIT, FLEX_REPLY, FLEX_REQUEST, HEADER_LENGTH, Magic, REPLY, REQUEST, Side,
};
use crate::judging::Fault;
use kv_edge::{u8_at, u16_at, u32_at, u64_at};

/// Where the body length stands.
const BODY_PLACE: usize = 8;

/// The numbers of a header as they stand.
#[derive(Clone, Copy, Debug)]
pub struct Fields {
    pub magic: u8,
    pub opcode: u8,
    /// Offsets 2 and 3 as one number.
    pub lengths: u16,
    pub extras: u8,
    pub datatype: u8,
    pub word: u16,
    pub body: u32,
    pub opaque: u32,
    pub cas: u64,
}

/// What a header says.
#[derive(Clone, Copy, Debug)]
pub struct Header {
    pub magic: Magic,
    pub opcode: u8,
    pub datatype: u8,
    pub word: u16,
    pub opaque: u32,
    pub cas: u64,
    /// How many bytes the framing extras have together; 0 where the magic has none.
    pub framing: usize,
    pub extras: usize,
    pub key: usize,
    /// How many bytes stand behind the header.
    pub body: usize,
}

/// What the front of bytes tells of a header.
#[derive(Clone, Copy, Debug)]
pub enum HeaderRead {
    /// A header without a fault.
    Good(Header),
    /// This many bytes of the header are missing.
    More(usize),
    /// What is wrong, and where.
    Bad(usize, Fault),
}

#[tactic(auto, unfolding(crate::specs::Reading::front_at))]
fn read_front(bytes: &[u8]) -> Option<((u8, u8, u16), &[u8])>
    ensures { option_map (λ x. (x.0, x.1.now)) result ≡ front_at bytes.now }
{
    let (magic, rest) = u8_at(bytes)?;
    let (opcode, rest) = u8_at(rest)?;
    let (lengths, rest) = u16_at(rest)?;
    Some(((magic, opcode, lengths), rest))
}

#[tactic(auto, unfolding(crate::specs::Reading::middle_at))]
fn read_middle(bytes: &[u8]) -> Option<((u8, u8, u16), &[u8])>
    ensures { option_map (λ x. (x.0, x.1.now)) result ≡ middle_at bytes.now }
{
    let (extras, rest) = u8_at(bytes)?;
    let (datatype, rest) = u8_at(rest)?;
    let (word, rest) = u16_at(rest)?;
    Some(((extras, datatype, word), rest))
}

#[tactic(auto, unfolding(crate::specs::Reading::back_at))]
fn read_back(bytes: &[u8]) -> Option<((u32, u32, u64), &[u8])>
    ensures { option_map (λ x. (x.0, x.1.now)) result ≡ back_at bytes.now }
{
    let (body, rest) = u32_at(bytes)?;
    let (opaque, rest) = u32_at(rest)?;
    let (cas, rest) = u64_at(rest)?;
    Some(((body, opaque, cas), rest))
}

/// The numbers of the header at the front and the bytes after it, or nothing where it isn't whole.
#[tactic(auto, unfolding(crate::specs::Reading::fields_at))]
fn read_fields(bytes: &[u8]) -> Option<(Fields, &[u8])>
    ensures { option_map (λ x. (x.0, x.1.now)) result ≡ fields_at bytes.now }
{
    let ((magic, opcode, lengths), rest) = read_front(bytes)?;
    let ((extras, datatype, word), rest) = read_middle(rest)?;
    let ((body, opaque, cas), rest) = read_back(rest)?;
    let fields = Fields {
        magic,
        opcode,
        lengths,
        extras,
        datatype,
        word,
        body,
        opaque,
        cas,
    };
    Some((fields, rest))
}

/// The magic of the side that this byte is.
fn magic_of(side: Side, byte: u8) -> Option<Magic>
    ensures { MatchOption result ((magic : Magic) → IsOfSide side magic → byte ≢ magic_byte magic) (λ magic. IsOfSide side magic × (byte ≡ magic_byte magic)) }
{
    match (side, byte) {
        (Side::Requests, REQUEST) => Some(Magic::Request),
        (Side::Requests, FLEX_REQUEST) => Some(Magic::FlexRequest),
        (Side::Replies, REPLY) => Some(Magic::Reply),
        (Side::Replies, FLEX_REPLY) => Some(Magic::FlexReply),
        _ => None,
    }
}

/// What a header with this magic and these numbers says.
fn header_from(magic: Magic, fields: Fields) -> Header
    ensures { result ≡ header_from magic fields }
{
    let (framing, key) = match magic {
        Magic::Request | Magic::Reply => (0, fields.lengths),
        Magic::FlexRequest | Magic::FlexReply => (fields.lengths / 256, fields.lengths % 256),
    };
    Header {
        magic,
        opcode: fields.opcode,
        datatype: fields.datatype,
        word: fields.word,
        opaque: fields.opaque,
        cas: fields.cas,
        framing: framing as usize,
        extras: fields.extras as usize,
        key: key as usize,
        body: fields.body as usize,
    }
}

/// Reads the header at the front, and judges it.
pub fn read_header(side: Side, bytes: &[u8]) -> HeaderRead
    ensures { ReadsHeader side bytes.now result }
{
    let fields = match read_fields(bytes) {
        Some((fields, _)) => fields,
        None => return HeaderRead::More(HEADER_LENGTH - bytes.len()),
    };
    let magic = match magic_of(side, fields.magic) {
        Some(magic) => magic,
        None => return HeaderRead::Bad(0, Fault::Magic),
    };
    let header = header_from(magic, fields);
    if header.body < header.framing + header.extras + header.key {
        return HeaderRead::Bad(BODY_PLACE, Fault::Lengths);
    }
    if header.body > BODY_LIMIT {
        return HeaderRead::Bad(BODY_PLACE, Fault::TooBig);
    }
    HeaderRead::Good(header)
}
