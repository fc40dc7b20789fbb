//! Links between the numbers of one line.
ghost use Rattle.std.specs.Prelude.{◌≡◌, ◌<◌, length, IfSome};
ghost use Rattle.aps_channel.specs.Links.{ends_pushed, ends_removed, links_pushed, links_removed, with_after, with_before};

/// Who stands before a number in its line, and who after it.
#[derive(Clone, Copy, PartialEq, Eq)]
pub struct Link {
    pub before: Option<u16>,
    pub after: Option<u16>,
}

/// Who stands first in a line, and who last.
#[derive(Clone, Copy, PartialEq, Eq)]
pub struct Ends {
    pub first: Option<u16>,
    pub last: Option<u16>,
}

impl Ends {
    /// The ends of the line once the number has joined it behind its last.
    pub fn with_last(self, number: u16) -> Ends
        ensures { result ≡ ends_pushed self number }
    {
        Ends {
            first: match self.first {
                None => Some(number),
                Some(first) => Some(first),
            },
            last: Some(number),
        }
    }

    /// The ends of the line once a number with this link has left it.
    pub fn without(self, link: Link) -> Ends
        ensures { result ≡ ends_removed self link }
    {
        Ends {
            first: match link.before {
                None => link.after,
                Some(_) => self.first,
            },
            last: match link.after {
                None => link.before,
                Some(_) => self.last,
            },
        }
    }
}

/// Links the number behind the last of a line, if there is one.
pub fn link_behind(links: &mut Vec<Link>, last: Option<u16>, number: u16)
    requires last { IfSome last (λ x. x < length links.old.items) }
    requires number { number < length links.old.items }
    ensures { links.new.items ≡ links_pushed links.old.items last number }
{
    links[number as usize] = Link {
        before: last,
        after: None,
    };
    set_after(links, last, Some(number));
}

/// Links those on both sides of a number with this link to each other.
pub fn close_gap(links: &mut Vec<Link>, link: Link)
    requires before { IfSome link.before (λ x. x < length links.old.items) }
    requires after { IfSome link.after (λ x. x < length links.old.items) }
    ensures { links.new.items ≡ links_removed links.old.items link }
{
    set_after(links, link.before, link.after);
    set_before(links, link.after, link.before);
}

/// Says who stands after a number, if one is given.
fn set_after(links: &mut Vec<Link>, number: Option<u16>, after: Option<u16>)
    requires { IfSome number (λ x. x < length links.old.items) }
    ensures { links.new.items ≡ with_after links.old.items number after }
{
    if let Some(x) = number {
        links[x as usize].after = after;
    }
}

/// Says who stands before a number, if one is given.
fn set_before(links: &mut Vec<Link>, number: Option<u16>, before: Option<u16>)
    requires { IfSome number (λ x. x < length links.old.items) }
    ensures { links.new.items ≡ with_before links.old.items number before }
{
    if let Some(x) = number {
        links[x as usize].before = before;
    }
}
