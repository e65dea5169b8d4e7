//! The definition of a match as a plain program: recursion on the items, with no budget. It is for small inputs, and
//! serves to compare with.

use mw_text::{Item, LuaPatternItemPart as Part, PreparedSet, Single};

/// How many marks are kept, which is enough for patterns of so many items.
pub(crate) const MOST_MARKS: usize = 4;

/// The places of the marks that were passed.
#[derive(Clone, Copy)]
pub(crate) struct Marks {
    places: [usize; MOST_MARKS],
    count: usize,
}

impl Marks {
    fn none() -> Marks {
        Marks {
            places: [0; MOST_MARKS],
            count: 0,
        }
    }

    /// The place of a mark that was passed.
    pub(crate) fn get(&self, index: usize) -> Option<usize> {
        if index < self.count && index < MOST_MARKS {
            Some(self.places[index])
        } else {
            None
        }
    }

    fn at(&self, index: usize) -> usize {
        self.get(index).unwrap_or(0)
    }

    /// These marks, and one more behind them.
    fn with(self, place: usize) -> Marks {
        let mut more = self;
        if self.count < MOST_MARKS {
            more.places[self.count] = place;
        }
        more.count = self.count.saturating_add(1);
        more
    }
}

/// Where a match ends, and the marks that it passed.
pub(crate) type Found = Option<(usize, Marks)>;

/// The items, each of which asks the rest, over the bytes of a subject.
#[derive(Drop)]
pub(crate) struct Plain<'s> {
    pub(crate) subject: &'s [u8],
    pub(crate) tries: u64,
}

fn is_in_set(prepared: &PreparedSet, symbol: char) -> bool {
    let set = prepared.set();
    let mut found = false;
    for part in set.parts.as_slice() {
        if let Part::Range(low, high) = *part {
            found = found || low <= symbol && symbol <= high;
        }
    }
    found != set.negated
}

fn fits(single: &Single, symbol: char) -> bool {
    match single {
        Single::Any => true,
        Single::Plain(plain) => *plain == symbol,
        Single::Kind(_, _) => false,
        Single::Of(set) => is_in_set(set, symbol),
    }
}

impl<'s> Plain<'s> {
    fn pay(&mut self) {
        self.tries = self.tries.saturating_add(1);
    }

    fn symbol(&self, at: usize) -> Option<char> {
        self.subject.get(at).map(|byte| *byte as char)
    }

    fn compare(&mut self, single: &Single, at: usize) -> bool {
        match self.symbol(at) {
            None => false,
            Some(symbol) => {
                self.pay();
                fits(single, symbol)
            }
        }
    }

    /// The match of the items at a place, behind these marks.
    #[cycle(way)]
    pub(crate) fn way(&mut self, items: &[Item], at: usize, marks: Marks) -> Found {
        let [item, rest @ ..] = items else {
            return Some((at, marks));
        };
        match item {
            Item::One(single) => {
                if self.compare(single, at) {
                    self.way(rest, at.saturating_add(1), marks)
                } else {
                    None
                }
            }
            Item::Star(single) => {
                let most = self.run(single, at);
                self.down(rest, at, most, marks)
            }
            Item::Plus(single) => {
                if self.compare(single, at) {
                    let low = at.saturating_add(1);
                    let most = self.run(single, low);
                    self.down(rest, low, most, marks)
                } else {
                    None
                }
            }
            Item::Minus(single) => self.up(single, rest, at, marks),
            Item::Maybe(single) => {
                if self.compare(single, at) {
                    let first = self.way(rest, at.saturating_add(1), marks);
                    if first.is_some() {
                        return first;
                    }
                }
                self.way(rest, at, marks)
            }
            other => self.way_of(other, rest, at, marks),
        }
    }

    /// The match of an item that is no single character, and of the rest behind it.
    #[cycle(way)]
    fn way_of(&mut self, item: &Item, rest: &[Item], at: usize, marks: Marks) -> Found {
        match item {
            Item::Back(first, last) => {
                let (from, to) = (marks.at(*first), marks.at(*last));
                if self.repeats(from, to, at) {
                    self.way(rest, at.saturating_add(to.saturating_sub(from)), marks)
                } else {
                    None
                }
            }
            Item::Balance(begin, shut) => match self.closed(*begin, *shut, at) {
                Some(end) => self.way(rest, end, marks),
                None => None,
            },
            Item::Frontier(set) => {
                self.pay();
                let before = if at == 0 { None } else { self.symbol(at - 1) };
                let here = self.symbol(at).unwrap_or('\0');
                if !is_in_set(set, before.unwrap_or('\0')) && is_in_set(set, here) {
                    self.way(rest, at, marks)
                } else {
                    None
                }
            }
            Item::Mark => {
                self.pay();
                self.way(rest, at, marks.with(at))
            }
            Item::End => {
                self.pay();
                if at == self.subject.len() {
                    self.way(rest, at, marks)
                } else {
                    None
                }
            }
            _ => None,
        }
    }

    fn run(&mut self, single: &Single, at: usize) -> usize {
        let mut end = at;
        for _ in 0..self.subject.len() {
            if !self.compare(single, end) {
                return end;
            }
            end = end.saturating_add(1);
        }
        end
    }

    #[cycle(way)]
    fn down(&mut self, rest: &[Item], low: usize, high: usize, marks: Marks) -> Found {
        for place in (low..high.saturating_add(1)).rev() {
            let found = self.way(rest, place, marks);
            if found.is_some() {
                return found;
            }
        }
        None
    }

    #[cycle(way)]
    fn up(&mut self, single: &Single, rest: &[Item], at: usize, marks: Marks) -> Found {
        for place in at..self.subject.len().saturating_add(1) {
            let found = self.way(rest, place, marks);
            if found.is_some() || !self.compare(single, place) {
                return found;
            }
        }
        None
    }

    fn repeats(&mut self, from: usize, to: usize, at: usize) -> bool {
        for place in from..to {
            let here = self.symbol(at.saturating_add(place - from));
            if here.is_none() {
                return false;
            }
            self.pay();
            if here != self.symbol(place) {
                return false;
            }
        }
        true
    }

    fn closed(&mut self, begin: char, shut: char, at: usize) -> Option<usize> {
        let mut depth: usize = 0;
        for place in at..self.subject.len() {
            self.pay();
            let symbol = self.symbol(place);
            if place == at {
                if symbol != Some(begin) {
                    return None;
                }
            } else if symbol == Some(shut) {
                if depth == 0 {
                    return Some(place.saturating_add(1));
                }
                depth = depth.saturating_sub(1);
            } else if symbol == Some(begin) {
                depth = depth.saturating_add(1);
            }
        }
        None
    }
}

/// The first start with a match: where it starts, and what `way` gives there.
pub(crate) fn first(
    plain: &mut Plain,
    anchored: bool,
    items: &[Item],
) -> Option<(usize, usize, Marks)> {
    if anchored {
        plain.pay();
    }
    for start in 0..plain.subject.len().saturating_add(1) {
        if let Some((end, marks)) = plain.way(items, start, Marks::none()) {
            return Some((start, end, marks));
        }
        if anchored {
            return None;
        }
    }
    None
}
