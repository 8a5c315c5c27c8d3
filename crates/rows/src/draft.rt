// A row while its lines are read: what is given under which key or as which part, not yet looked into.

use crate::fault::{ArchiveFault, ArchiveRefusal};
use crate::lines::Line;
use memchr::memchr;
use std::alloc::Global;

/// What a row gives, under a key or as a part.
#[derive(Clone, Copy, Debug, PartialEq, Eq)]
pub(crate) enum Key {
    Words,
    Status,
    Input,
    Output,
    Errors,
    Left,
    Pieces,
    FailRead,
    FailWrite,
    FailTell,
    Room,
    TellRoom,
}

impl Key {
    // The key of this name.
    fn named(name: &[u8]) -> Option<Key> {
        match name {
            b"words" => Some(Key::Words),
            b"status" => Some(Key::Status),
            b"pieces" => Some(Key::Pieces),
            b"fail-read" => Some(Key::FailRead),
            b"fail-write" => Some(Key::FailWrite),
            b"fail-tell" => Some(Key::FailTell),
            b"room" => Some(Key::Room),
            b"tell-room" => Some(Key::TellRoom),
            _ => Key::of_part(name),
        }
    }

    // The part of this name.
    fn of_part(name: &[u8]) -> Option<Key> {
        match name {
            b"input" => Some(Key::Input),
            b"output" => Some(Key::Output),
            b"errors" => Some(Key::Errors),
            b"left" => Some(Key::Left),
            _ => None,
        }
    }
}

/// What stands under a key, as one line or none, or in a part, as its lines.
#[derive(Drop)]
pub(crate) struct Setting<'a> {
    pub key: Key,
    pub is_part: bool,
    // where it begins
    pub head: Line<'a>,
    pub lines: Vec<Line<'a>>,
}

impl<'a> Setting<'a> {
    /// The refusal of an archive for this setting.
    pub fn refusal(&self, fault: ArchiveFault) -> ArchiveRefusal {
        self.head.refusal(fault)
    }

    /// The value under a key; nothing where nothing is given.
    pub fn value(&self) -> &'a [u8] {
        match self.lines.first() {
            Some(line) => line.text,
            None => &[],
        }
    }

    /// Whether it says that anything may be there.
    pub fn is_any(&self) -> bool {
        !self.is_part && self.value() == b"*".as_slice()
    }
}

/// A row whose head was read, with the lines behind it so far.
#[derive(Drop)]
pub(crate) struct Draft<'a> {
    alloc: Global,
    head: Line<'a>,
    name: &'a [u8],
    settings: Vec<Setting<'a>>,
    in_part: bool,
}

impl<'a> Draft<'a> {
    /// The row of this name, whose head was read.
    pub fn new(alloc: Global, head: Line<'a>, name: &'a [u8]) -> Draft<'a> {
        Draft {
            alloc,
            head,
            name,
            settings: Vec::new(alloc),
            in_part: false,
        }
    }

    /// Its name.
    pub fn name(&self) -> &'a [u8] {
        self.name
    }

    /// What it gives under this key.
    pub fn find(&self, key: Key) -> Option<&Setting<'a>> {
        self.settings.iter().find(|setting| setting.key == key)
    }

    /// What it gives under this key, which has to be given.
    pub fn need(&self, key: Key, fault: ArchiveFault) -> Result<&Setting<'a>, ArchiveRefusal> {
        match self.find(key) {
            Some(setting) => Ok(setting),
            None => Err(self.head.refusal(fault)),
        }
    }

    /// One more line, which is no row's head.
    pub fn take(&mut self, line: Line<'a>) -> Result<(), ArchiveRefusal> {
        match line.part_name() {
            Some(name) => {
                let Some(key) = Key::of_part(name) else {
                    return Err(line.refusal(ArchiveFault::UnknownPart));
                };
                self.in_part = true;
                self.add(key, true, line, &[])
            }
            None if self.in_part => self.take_text(line),
            None if line.text.is_empty() || line.text.starts_with(b"#") => Ok(()),
            None => self.take_setting(line),
        }
    }

    // One more line of the part that is open.
    fn take_text(&mut self, line: Line<'a>) -> Result<(), ArchiveRefusal> {
        if let Some(part) = self.settings.last_mut() {
            part.lines.push(line)?;
        }
        Ok(())
    }

    // A line `KEY: VALUE`.
    fn take_setting(&mut self, line: Line<'a>) -> Result<(), ArchiveRefusal> {
        let Some(end) = memchr(b':', line.text) else {
            return Err(line.refusal(ArchiveFault::NoSetting));
        };
        let Some(key) = Key::named(&line.text[..end]) else {
            return Err(line.refusal(ArchiveFault::UnknownKey));
        };
        let behind = &line.text[end + 1..];
        let text = behind.strip_prefix(b" ").unwrap_or(behind);
        if text.is_empty() {
            return self.add(key, false, line, &[]);
        }
        let number = line.number;
        self.add(key, false, line, &[Line { number, text }])
    }

    // One more setting, which wasn't given so far.
    fn add(
        &mut self,
        key: Key,
        is_part: bool,
        head: Line<'a>,
        lines: &[Line<'a>],
    ) -> Result<(), ArchiveRefusal> {
        if self.find(key).is_some() {
            return Err(head.refusal(ArchiveFault::GivenTwice));
        }
        let lines = Vec::from_slice(self.alloc, lines)?;
        self.settings.push(Setting {
            key,
            is_part,
            head,
            lines,
        })?;
        Ok(())
    }
}
