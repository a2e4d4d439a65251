//! Leaves as ends of links.

ghost use Rattle.std.specs.Prelude.{◌≡◌};
ghost use Rattle.bsp_tree.specs.Links.{is_alike, is_leaf, same_leaf, exchanged_leaf};

use link_forest::Link;

/// Whether both are ends of one kind.
pub fn is_same_leaf(behind: Link, ahead: Link) -> bool
    ensures { result ≡ same_leaf behind ahead }
{
    match behind {
        Link::End(is_inside) => is_leaf(ahead, is_inside),
        Link::To(_) => false,
    }
}

// Whether a link is an end of this kind.
fn is_leaf(link: Link, is_inside: bool) -> bool
    ensures { result ≡ is_leaf is_inside link }
{
    match link {
        Link::End(other) => is_alike(is_inside, other),
        Link::To(_) => false,
    }
}

/// Whether both are so, or neither.
pub fn is_alike(one: bool, other: bool) -> bool
    ensures { result ≡ is_alike one other }
{
    if one { other } else { !other }
}

/// Whether a leaf is inside, where leaves are exchanged.
pub fn exchanged_leaf(is_inside: bool, is_exchanged: bool) -> bool
    ensures { result ≡ exchanged_leaf is_inside is_exchanged }
{
    if is_exchanged { !is_inside } else { is_inside }
}
