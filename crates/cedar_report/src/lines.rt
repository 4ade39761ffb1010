//! The lines of a text, and where people and editors see one of its bytes.
ghost use Rattle.std.specs.Prelude.{◌≡◌, ◌≤◌, ◌<◌, ◌+◌, ◌-◌, ◌^◌, ℕ, List, [], length, map, take, slice_get, if◌then◌else◌, IfOk};
ghost use Rattle.std.specs.Option.{option_map};
ghost use Rattle.std.specs.List.{All};
ghost use Rattle.cedar_syntax.specs.places.Position.{is_line_feed, begins_character};
ghost use Rattle.cedar_report.specs.Spots.{utf16_units, spot_behind, spot_of, lines_of, IsShownFor, IsShownLine, IsStation};

use std::alloc::{AllocError, Global};

/// A line and a column, both counted from 1: the column in characters, and in UTF-16 units. A line
/// ends with its line feed.
#[derive(Debug, Clone, Copy, PartialEq, Eq)]
pub struct Spot {
    pub line: usize,
    pub column: usize,
    pub utf16: usize,
}

/// How many bytes stand between two stations.
const STRIDE: usize = 512;

/// A byte with its spot, and the byte at which its line starts.
#[derive(Debug, Clone, Copy)]
pub struct Station {
    pub offset: usize,
    pub line_start: usize,
    pub spot: Spot,
}

impl Station {
    // The text's first byte.
    fn first() -> Station
        ensures { (result.offset ≡ 0) × (result.spot ≡ spot_behind []) }
    {
        Station {
            offset: 0,
            line_start: 0,
            spot: Spot {
                line: 1,
                column: 1,
                utf16: 1,
            },
        }
    }

    // The next byte, behind this one.
    fn behind(self, byte: u8) -> Station
        requires offset_fits { self.offset < 2 ^ 63 }
        requires line_fits { self.spot.line < 2 ^ 63 + 1 }
        requires column_fits { self.spot.column < 2 ^ 63 + 1 }
        requires utf16_fits { self.spot.utf16 < 2 ^ 64 - 2 }
        ensures offset { result.offset ≡ self.offset + 1 }
        ensures line { result.spot.line
            ≡ self.spot.line + (if is_line_feed byte then 1 else 0) }
        ensures column { result.spot.column ≡ (if is_line_feed byte then 1 else
            self.spot.column + (if begins_character byte then 1 else 0)) }
        ensures utf16 { result.spot.utf16 ≡ (if is_line_feed byte then 1 else
            self.spot.utf16 + utf16_units byte) }
    {
        let offset = self.offset + 1;
        if byte == b'\n' {
            let spot = Spot {
                line: self.spot.line + 1,
                column: 1,
                utf16: 1,
            };
            return Station {
                offset,
                line_start: offset,
                spot,
            };
        }
        let spot = Spot {
            line: self.spot.line,
            column: self.spot.column + characters(byte),
            utf16: self.spot.utf16 + units(byte),
        };
        Station {
            offset,
            line_start: self.line_start,
            spot,
        }
    }
}

// How many characters begin with a byte.
fn characters(byte: u8) -> usize
    ensures { result ≡ (if begins_character byte then 1 else 0) }
{
    if byte < 128 || byte >= 192 { 1 } else { 0 }
}

// How many UTF-16 units the character takes that begins with a byte.
fn units(byte: u8) -> usize
    ensures { result ≡ utf16_units byte }
{
    if byte >= 240 { 2 } else { characters(byte) }
}

/// A text with its lines and the spots of some of its bytes, so that a spot is found by few steps.
#[derive(Drop)]
pub struct Lines<'a> {
    pub text: &'a str,
    lines: Vec<&'a str>,
    stations: Vec<Station>,
    ghost cut: { map (λ line. line.now) lines.items ≡ lines_of text.now },
    ghost seen: { All (IsStation text.now) stations.items },
}

impl<'a> Lines<'a> {
    /// The lines of a text, found in two passes. Only want of memory refuses it.
    pub fn of(alloc: Global, text: &'a str) -> Result<Lines<'a>, AllocError>
        ensures { IfOk result (λ lines. lines.text.now ≡ text.now) }
    {
        let lines = cut(alloc, text)?;
        let stations = stations(alloc, text.as_bytes())?;
        Ok(Lines {
            text,
            lines,
            stations,
        })
    }

    /// A line by its number, counted from 0, without its line feed; `None` past the last.
    pub fn line(&self, number: usize) -> Option<&'a str>
        ensures { option_map (λ line. line.now) result
            ≡ slice_get (lines_of self.now.text.now) number }
    {
        self.lines.get(number).copied()
    }

    /// A line by its number, counted from 0, as people are shown it: without its line feed, and
    /// without a return before that; the empty text past the last.
    pub fn shown(&self, number: usize) -> &'a str
        ensures { IsShownLine (slice_get (lines_of self.now.text.now) number) result.now }
    {
        match self.line(number) {
            Some(line) => without_return(line),
            None => "",
        }
    }

    /// Where a byte stands. Within a character it is the place behind that one, behind the text
    /// the text's end.
    pub fn spot(&self, offset: usize) -> Spot
        ensures { result ≡ spot_of self.now.text.now offset }
    {
        self.station(offset).spot
    }

    /// A byte with its spot and its line's start.
    pub fn station(&self, offset: usize) -> Station
        ensures { result.spot ≡ spot_of self.now.text.now offset }
    {
        let bytes = self.text.as_bytes();
        let from = self.station_before(offset);
        walk(bytes, from, offset.min(bytes.len()))
    }

    // The last station that doesn't stand behind a byte.
    fn station_before(&self, offset: usize) -> Station
        ensures station { IsStation self.now.text.now result }
        ensures before { result.offset ≤ offset }
    {
        let behind = self.stations.partition_point(|s| s.offset <= offset);
        match self.stations.get(behind.saturating_sub(1)) {
            Some(station) => station.unless_behind(offset),
            None => Station::first(),
        }
    }
}

impl Station {
    // This station, or the first where it stands behind a byte.
    fn unless_behind(&self, offset: usize) -> Station
        ensures before { result.offset ≤ offset }
        ensures same { (text : List ℕ) → IsStation text self.now → IsStation text result }
    {
        if self.offset <= offset {
            *self
        } else {
            Station::first()
        }
    }
}

// A line without the return that may end it.
fn without_return(line: &str) -> &str
    ensures { IsShownFor line.now result.now }
{
    match line.strip_suffix('\r') {
        Some(rest) => rest,
        None => line,
    }
}

// The parts of a text between its line feeds.
fn cut<'a>(alloc: Global, text: &'a str) -> Result<Vec<&'a str>, AllocError>
    ensures { IfOk result (λ lines. map (λ line. line.now) lines.items ≡ lines_of text.now) }
{
    text.split('\n').collect(alloc)
}

// A station in each 512 bytes.
fn stations(alloc: Global, bytes: &[u8]) -> Result<Vec<Station>, AllocError>
    ensures { IfOk result (λ stations. All (IsStation bytes.now) stations.items) }
{
    let mut stations = Vec::new(alloc);
    let mut at = Station::first();
    for byte in bytes {
        if at.offset % STRIDE == 0 {
            stations.push(at)?;
        }
        at = at.behind(*byte);
    }
    Ok(stations)
}

// From a station on to a byte behind it.
fn walk(bytes: &[u8], from: Station, to: usize) -> Station
    requires station { IsStation bytes.now from }
    requires order { from.offset ≤ to }
    requires within { to ≤ length bytes.now }
    ensures { IsStation bytes.now result × (result.offset ≡ to) }
{
    let mut at = from;
    for offset in from.offset..to {
        at = at.behind(bytes[offset]);
    }
    at
}
