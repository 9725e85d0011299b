//! Where keys and tables stand in the text of a plan.
//!
//! The text is one that `toml` has read: so this walk follows quotes, remarks and brackets alone, and finds the line of a key by its name. A key whose
//! name has escapes in it isn't found. No clause speaks of lines.

/// What is looked for in the text of a plan. Tables of tariffs are counted from 1.
#[derive(Clone, Copy)]
pub(crate) enum Sought<'k> {
    /// A key of the plan.
    Key(&'k str),
    /// A table of tariffs.
    Table(usize),
    /// A key of such a table.
    KeyOf(usize, &'k str),
}

/// How an octet is read.
#[derive(Clone, Copy)]
enum Mode {
    Plain,
    Remark,
    /// Behind one or two quotes, with which a text begins, or is an empty one.
    Opening(u8, bool),
    /// In a text of one line.
    Text(u8, bool),
    /// In a text of many lines, behind so many of its closing quotes.
    Lines(u8, bool, u8),
}

/// What a plain octet belongs to.
#[derive(Clone, Copy, PartialEq, Eq)]
enum Part {
    Key,
    Header,
    Value,
}

/// Whose the keys of a line are, outside brackets.
#[derive(Clone, Copy)]
enum Owner {
    Plan,
    Tariff,
    Other,
}

/// The walk over the text, at one octet.
#[derive(Drop)]
struct Walk<'t, 'k> {
    text: &'t [u8],
    sought: Sought<'k>,
    at: usize,
    line: usize,
    mode: Mode,
    part: Part,
    /// Where the key or the header that is being read begins: its place and its line.
    from: Option<(usize, usize)>,
    /// So many brackets and braces are open.
    depth: usize,
    owner: Owner,
    /// Whether the value that is being read is the list of tariffs.
    is_list: bool,
    /// So many tables of tariffs have begun.
    tables: usize,
    found: Option<usize>,
}

/// The line, from 1, of a key or a table, if it stands there.
pub(crate) fn line_of(text: &[u8], sought: Sought<'_>) -> Option<usize> {
    let mut walk = Walk {
        text,
        sought,
        at: 0,
        line: 1,
        mode: Mode::Plain,
        part: Part::Key,
        from: None,
        depth: 0,
        owner: Owner::Plan,
        is_list: false,
        tables: 0,
        found: None,
    };
    for (at, octet) in text.iter().enumerate() {
        walk.at = at;
        walk.step(*octet);
        if *octet == b'\n' {
            walk.line = walk.line.saturating_add(1);
        }
    }
    walk.found
}

impl Walk<'_, '_> {
    fn step(&mut self, octet: u8) {
        match self.mode {
            Mode::Plain => self.plain(octet),
            Mode::Remark => {
                if octet == b'\n' {
                    self.mode = Mode::Plain;
                    self.plain(octet);
                }
            }
            Mode::Opening(quote, is_second) => self.opening(octet, quote, is_second),
            Mode::Text(quote, is_escaped) => {
                self.mode = if is_escaped {
                    Mode::Text(quote, false)
                } else if octet == quote {
                    Mode::Plain
                } else {
                    Mode::Text(quote, escapes(quote, octet))
                };
            }
            Mode::Lines(quote, is_escaped, closing) => {
                self.closing(octet, quote, is_escaped, closing);
            }
        }
    }

    /// Behind the first quote, or behind two.
    fn opening(&mut self, octet: u8, quote: u8, is_second: bool) {
        match (octet == quote, is_second) {
            (true, false) => self.mode = Mode::Opening(quote, true),
            (true, true) => self.mode = Mode::Lines(quote, false, 0),
            (false, false) => self.mode = Mode::Text(quote, escapes(quote, octet)),
            (false, true) => {
                self.mode = Mode::Plain;
                self.plain(octet);
            }
        }
    }

    /// In a text of many lines, which three quotes end; one or two more in front of them belong to it.
    fn closing(&mut self, octet: u8, quote: u8, is_escaped: bool, closing: u8) {
        if octet == quote && !is_escaped {
            self.mode = Mode::Lines(quote, false, closing.saturating_add(1));
        } else if closing >= 3 {
            self.mode = Mode::Plain;
            self.plain(octet);
        } else {
            self.mode = Mode::Lines(quote, !is_escaped && escapes(quote, octet), 0);
        }
    }

    fn plain(&mut self, octet: u8) {
        match octet {
            b'\n' => self.end_line(),
            b'#' => self.mode = Mode::Remark,
            b'[' => self.open_bracket(),
            b']' => self.close_bracket(),
            b'{' => self.open_brace(),
            b'}' => self.close(),
            b',' => self.part_items(),
            b'=' => self.end_key(),
            b' ' | b'\t' | b'\r' => {}
            b'"' | b'\'' => {
                self.begin();
                self.mode = Mode::Opening(octet, false);
            }
            _ => self.begin(),
        }
    }

    /// A key begins, where one may.
    fn begin(&mut self) {
        if self.part == Part::Key && self.from.is_none() {
            self.from = Some((self.at, self.line));
        }
    }

    fn end_line(&mut self) {
        if self.depth == 0 {
            self.part = Part::Key;
            self.from = None;
            self.is_list = false;
        }
    }

    fn open_bracket(&mut self) {
        match self.part {
            Part::Key if self.depth == 0 => {
                self.part = Part::Header;
                self.from = Some((self.at, self.line));
            }
            Part::Header => {}
            _ => self.depth = self.depth.saturating_add(1),
        }
    }

    fn close_bracket(&mut self) {
        if self.part == Part::Header {
            self.end_header();
        } else {
            self.close();
        }
    }

    fn open_brace(&mut self) {
        self.depth = self.depth.saturating_add(1);
        self.part = Part::Key;
        self.from = None;
        if self.is_list && self.depth == 2 {
            self.begin_table(self.line);
        }
    }

    fn close(&mut self) {
        self.depth = self.depth.saturating_sub(1);
        self.part = Part::Value;
    }

    fn part_items(&mut self) {
        if self.is_list && self.depth == 2 {
            self.part = Part::Key;
            self.from = None;
        }
    }

    fn end_key(&mut self) {
        if self.part != Part::Key {
            return;
        }
        self.part = Part::Value;
        if let Some((from, line)) = self.from {
            let (first, _) = two_parts(self.text.get(from..self.at).unwrap_or(&[]));
            self.meet_key(first, line);
        }
    }

    /// A key, whose name is read.
    fn meet_key(&mut self, name: &[u8], line: usize) {
        match self.owner {
            Owner::Plan if self.depth == 0 => {
                self.is_list = name == b"tariff".as_slice();
                self.found_key(name, line);
            }
            Owner::Tariff if self.depth == 0 => self.found_key_of_table(name, line),
            _ if self.is_list && self.depth == 2 => self.found_key_of_table(name, line),
            _ => {}
        }
    }

    /// A line in brackets, whose last one isn't read yet where it has two.
    fn end_header(&mut self) {
        self.part = Part::Value;
        let Some((from, line)) = self.from else {
            return;
        };
        let header = self.text.get(from..self.at).unwrap_or(&[]);
        let (first, second) = two_parts(header);
        self.owner = Owner::Other;
        self.found_key(first, line);
        if first == b"tariff".as_slice() {
            if second.is_some() {
                self.found_key_of_table(second.unwrap_or(&[]), line);
            } else if header.starts_with(b"[[") {
                self.owner = Owner::Tariff;
                self.begin_table(line);
            }
        }
    }

    fn begin_table(&mut self, line: usize) {
        self.tables = self.tables.saturating_add(1);
        if let Sought::Table(number) = self.sought {
            if number == self.tables {
                self.note(line);
            }
        }
    }

    fn found_key(&mut self, name: &[u8], line: usize) {
        if let Sought::Key(key) = self.sought {
            if key.as_bytes() == name {
                self.note(line);
            }
        }
    }

    fn found_key_of_table(&mut self, name: &[u8], line: usize) {
        if let Sought::KeyOf(number, key) = self.sought {
            if number == self.tables && key.as_bytes() == name {
                self.note(line);
            }
        }
    }

    /// The first line that is found counts.
    fn note(&mut self, line: usize) {
        if self.found.is_none() {
            self.found = Some(line);
        }
    }
}

/// Whether an octet takes the meaning of the next one, in a text of these quotes.
fn escapes(quote: u8, octet: u8) -> bool {
    quote == b'"' && octet == b'\\'
}

/// The first part of a dotted key or a header, and the second one, if there are two.
fn two_parts(key: &[u8]) -> (&[u8], Option<&[u8]>) {
    match key.iter().position(|octet| *octet == b'.') {
        Some(dot) => (
            bare(key.get(..dot).unwrap_or(&[])),
            Some(second_part(key.get(dot..).unwrap_or(&[]))),
        ),
        None => (bare(key), None),
    }
}

/// The part behind the first dot, to the next one.
fn second_part(rest: &[u8]) -> &[u8] {
    let rest = rest.get(1..).unwrap_or(&[]);
    match rest.iter().position(|octet| *octet == b'.') {
        Some(dot) => bare(rest.get(..dot).unwrap_or(&[])),
        None => bare(rest),
    }
}

/// A part without the brackets, blanks and quotes round it.
pub(crate) fn bare(part: &[u8]) -> &[u8] {
    let first = part.iter().position(|octet| !is_edge(*octet));
    let last = part.iter().rposition(|octet| !is_edge(*octet));
    match (first, last) {
        (Some(first), Some(last)) => part.get(first..=last).unwrap_or(&[]),
        _ => &[],
    }
}

fn is_edge(octet: u8) -> bool {
    matches!(octet, b'[' | b' ' | b'\t' | b'"' | b'\'')
}
