// The items of a link, one after the other. What an item is for is known by where it stands (docs/RULES.md, section 1).
ghost use Rattle.std.specs.Prelude.{◌≡◌, ◌≤◌, ◌<◌, ◌+◌, ◌-◌, ◌++◌, None, IfSome, length};
ghost use Rattle.std.specs.Option.{ForSome};
ghost use Rattle.std.specs.Iterator.{at_most};

use cbor::{Head, Kind, Kinds, head_at, width_of};
use std::fmt;

// ---- what an item is for

#[derive(Clone, Copy, Debug, PartialEq, Eq)]
pub enum Role {
    Link,
    Opening,
    Authority,
    Path,
    Query,
    Fragment,
    // Nothing: it stands after the link.
    After,
}

impl Role {
    // What the item after this one is for, where the link has one.
    fn next(self) -> Role {
        match self {
            Role::Link => Role::Opening,
            Role::Opening => Role::Authority,
            Role::Authority => Role::Path,
            Role::Path => Role::Query,
            Role::Query => Role::Fragment,
            Role::Fragment | Role::After => Role::After,
        }
    }
}

// An item of an array in the link: which it is, from 0 on, and how many the array has from this one on.
#[derive(Clone, Copy, Debug, PartialEq, Eq)]
pub struct Inner {
    pub index: usize,
    left: u64,
}

// Where an item stands.
#[derive(Clone, Copy, Debug, PartialEq, Eq)]
pub struct Place {
    // What it is for, or what the array is for that it stands in.
    pub role: Role,
    // In such an array: an authority, a path or a query.
    pub inner: Option<Inner>,
    // How many items the link has after this one, or after that array.
    outer: u64,
}

impl Place {
    // The next item of the link, which has `count` left.
    fn outer(role: Role, count: u64) -> Place
        ensures { result.inner ≡ None }
    {
        match count.checked_sub(1) {
            Some(outer) => Place {
                role,
                inner: None,
                outer,
            },
            None => Place {
                role: Role::After,
                inner: None,
                outer: 0,
            },
        }
    }

    fn after_inner(self, inner: Inner) -> Place
        ensures { IfSome result.inner (λ next. next.index ≤ inner.index + 1) }
    {
        if inner.left <= 1 {
            return Place::outer(self.role.next(), self.outer);
        }
        let next = Inner {
            index: inner.index.saturating_add(1),
            left: inner.left - 1,
        };
        Place {
            inner: Some(next),
            ..self
        }
    }

    // After the head of an array: its first item, or the next item of the link.
    fn after_array(self, count: u64) -> Place
        requires { self.inner ≡ None }
        ensures { IfSome result.inner (λ first. first.index ≡ 0) }
    {
        if self.role == Role::Link {
            return Place::outer(Role::Opening, count);
        }
        if count == 0 {
            return Place::outer(self.role.next(), self.outer);
        }
        let first = Inner {
            index: 0,
            left: count,
        };
        Place {
            inner: Some(first),
            ..self
        }
    }

    // After an item that stands here and has this head. No authority stands after a discard.
    pub fn after(self, head: Option<Head>) -> Place
        ensures first { self.inner ≡ None → IfSome result.inner (λ first. first.index ≡ 0) }
        ensures next { IfSome self.inner (λ inner. IfSome result.inner (λ next. next.index ≤ inner.index + 1)) }
    {
        if let Some(inner) = self.inner {
            return self.after_inner(inner);
        }
        match head {
            Some(head) if head.is(Kind::Array) => self.after_array(head.value),
            Some(head) if head.is(Kind::Number) || head.is(Kind::True) => {
                Place::outer(Role::Path, self.outer)
            }
            _ => Place::outer(self.role.next(), self.outer),
        }
    }

    // How many blanks an item stands behind.
    pub fn indent(self) -> usize
        ensures { result ≤ 4 }
    {
        match self.role {
            _ if self.inner.is_some() => 4,
            Role::Link | Role::After => 0,
            _ => 2,
        }
    }

    // Whether it is the first item of its array, or the link itself.
    pub fn is_first(self) -> bool {
        match self.inner {
            Some(inner) => inner.index == 0,
            None => matches!(self.role, Role::Link | Role::Opening),
        }
    }
}

// What an item is for, in words.
impl fmt::Display for Place {
    fn fmt<W: fmt::Write>(&self, f: &mut fmt::Formatter<W>) -> fmt::Result {
        if let Some(inner) = self.inner {
            let index = inner.index;
            return match self.role {
                Role::Authority => write!(f, "authority item {index}"),
                Role::Path => write!(f, "segment {index}"),
                _ => write!(f, "parameter {index}"),
            };
        }
        f.write_str(match self.role {
            Role::Link => "link",
            Role::Opening => "opening",
            Role::Authority => "authority",
            Role::Path => "path",
            Role::Query => "query",
            Role::Fragment => "fragment",
            Role::After => "after the array",
        })
    }
}

// ---- the items

const ANY: Kinds = Kinds {
    number: true,
    negative: true,
    byte_string: true,
    text: true,
    array: true,
    yes: true,
    null: true,
};

// An item: its offset, where it stands in the link, what its head says where that can be read, and its bytes as far as they are there.
#[derive(Clone, Copy)]
pub struct Item<'a> {
    pub at: usize,
    pub place: Place,
    pub head: Option<Head>,
    // All bytes from its first on.
    pub bytes: &'a [u8],
    // The first byte, the rest of the head, and the content of a byte string or a text.
    pub first: &'a [u8],
    pub argument: &'a [u8],
    pub content: &'a [u8],
    // What stands after the item.
    rest: &'a [u8],
}

// How many bytes follow the first byte of a head: none where its head information is reserved or indefinite.
fn width_at(s: &[u8]) -> usize {
    match s {
        [first, ..] if first % 32 < 28 => width_of(first % 32),
        _ => 0,
    }
}

// How many bytes a head says that the content of a byte string or a text has.
pub fn content_length(head: Option<Head>) -> Option<u64> {
    match head {
        Some(head) if head.is(Kind::ByteString) || head.is(Kind::Text) => Some(head.value),
        _ => None,
    }
}

impl<'a> Item<'a> {
    // The item at the start of s, which stands at this offset and place.
    pub fn read(s: &'a [u8], at: usize, place: Place) -> Item<'a>
        ensures bytes { result.bytes.now ≡ s.now }
        ensures parts { s.now ≡ result.first.now ++ (result.argument.now ++ (result.content.now ++ result.rest.now)) }
        ensures first { 0 < length s.now → length result.first.now ≡ 1 }
        ensures offset { result.at ≡ at }
    {
        let head = head_at(s, 0, ANY).ok();
        let (first, rest) = s.split_at(s.len().min(1));
        let (argument, rest) = rest.split_at(width_at(s).min(rest.len()));
        let length = content_length(head).unwrap_or(0) as usize;
        let (content, rest) = rest.split_at(length.min(rest.len()));
        Item {
            at,
            place,
            head,
            bytes: s,
            first,
            argument,
            content,
            rest,
        }
    }
}

// The items of a link, the link itself first.
#[derive(Drop)]
pub struct Items<'a> {
    link: &'a [u8],
    rest: &'a [u8],
    // Where the next item stands.
    pub place: Place,
    ghost in_link: { length rest.now ≤ length link.now },
    // An index is no larger than the offset.
    ghost counted: { ForSome place.inner (λ inner. inner.index ≤ length link.now - length rest.now) },
}

impl<'a> Items<'a> {
    pub fn of(link: &'a [u8]) -> Items<'a>
        ensures link { result.link.now ≡ link.now }
        ensures rest { result.rest.now ≡ link.now }
        ensures place { result.place.inner ≡ None }
    {
        Items {
            link,
            rest: link,
            place: Place {
                role: Role::Link,
                inner: None,
                outer: 0,
            },
        }
    }

    // The item at the start of what is left; what stands after it is left then.
    fn advance(&mut self) -> Item<'a>
        requires { 0 < length self.old.rest.now }
        ensures offset { result.at ≡ length self.old.link.now - length self.old.rest.now }
        ensures bytes { result.bytes.now ≡ self.old.rest.now }
        ensures link { self.new.link.now ≡ self.old.link.now }
        ensures rest { self.new.rest.now ≡ result.rest.now }
        ensures shorter { length self.new.rest.now < length self.old.rest.now }
    {
        let item = Item::read(self.rest, self.link.len() - self.rest.len(), self.place);
        self.rest = item.rest;
        self.place = self.place.after(item.head);
        item
    }
}

impl<'a> Iterator for Items<'a> {
    type Item = Item<'a>;

    ghost remaining = { λ s. at_most (length s.rest.now) };

    fn next(&mut self) -> Option<Item<'a>> {
        if self.rest.is_empty() {
            return None;
        }
        Some(self.advance())
    }
}
