//! The facets on the faces of a forest.

ghost use Rattle.std.specs.Prelude.{◌≤◌, length};
ghost use Rattle.link_forest.specs.Forests.{IsLinkOf};
ghost use Rattle.plane_table.specs.Faces.{IsFaceOver};
ghost use Rattle.plane_table.specs.Cuts.{IsCrossing};
ghost use Rattle.bsp_tree.specs.Shapes.{AreFacesOver};
ghost use Rattle.facet_cut.specs.Facets.{facets_ahead, facets_between, facets_of, facets_facing};
ghost use Rattle.facet_cut.specs.Adding.{AddsFacetsWithin};
ghost use Rattle.facet_cut.specs.Between.{half_at, outline_at, solid_at};

use crate::adding::push_facing;
use crate::{CutStop, Facet};
use bsp_tree::{Face, Forest, Link, is_same_leaf};
use plane_polygon::Class;
use plane_table::{Crossing, Half, PlaneTable, cut, polygon_of, sides_where_across};
use std::alloc::Global;

/// The nodes of a solid, between whose leaves its faces are cut.
#[derive(Clone, Copy)]
pub struct Walls<'a> {
    /// The planes of the solid.
    pub table: &'a PlaneTable,
    /// Its nodes.
    pub forest: &'a Forest<Face>,
}

impl<'a> Walls<'a> {
    /// Adds the facets of the solid at a link.
    pub fn push_facets(
        &self,
        alloc: Global,
        at: Link,
        most: u64,
        found: &mut Vec<Facet>,
    ) -> Result<(), CutStop>
        requires faces { AreFacesOver self.now.table.now self.now.forest.now.nodes }
        requires link { IsLinkOf self.now.forest.now.nodes at }
        requires within { length found.old.items ≤ most }
        ensures { AddsFacetsWithin (facets_of
            (solid_at self.now at)) most found.old.items found.new.items
            result }
    {
        match at {
            Link::End(_) => Ok(()),
            Link::To(id) => {
                let (face, behind, ahead) = self.forest.at(id);
                self.push_between(alloc, behind, ahead, face, most, found)?;
                self.push_facets(alloc, behind, most, found)?;
                self.push_facets(alloc, ahead, most, found)
            }
        }
    }

    /// Adds the facets on a face between the solids behind and ahead of its plane.
    pub fn push_between(
        &self,
        alloc: Global,
        behind: Link,
        ahead: Link,
        face: &Face,
        most: u64,
        found: &mut Vec<Facet>,
    ) -> Result<(), CutStop>
        requires faces { AreFacesOver self.now.table.now self.now.forest.now.nodes }
        requires behind { IsLinkOf self.now.forest.now.nodes behind }
        requires ahead { IsLinkOf self.now.forest.now.nodes ahead }
        requires face { IsFaceOver self.now.table.now face.now }
        requires within { length found.old.items ≤ most }
        ensures { AddsFacetsWithin (facets_between (solid_at self.now behind)
            (solid_at self.now ahead)
            (outline_at self.now face.now)) most found.old.items found.new.items result }
    {
        match behind {
            Link::End(is_inside) => { self.push_ahead(alloc, is_inside, ahead, face, most, found) }
            Link::To(id) => {
                let (own, low, high) = self.forest.at(id);
                let of_face = sides_where_across(alloc, self.table, face, own.plane)?;
                match of_face.class {
                    Class::Behind | Class::On => {
                        self.push_between(alloc, low, ahead, face, most, found)
                    }
                    Class::Ahead => self.push_between(alloc, high, ahead, face, most, found),
                    Class::Across => {
                        let crossing = Crossing {
                            face,
                            number: own.plane,
                            sides: &of_face,
                        };
                        let part = cut(alloc, self.table, crossing, Half::Behind)?;
                        self.push_between(alloc, low, ahead, &part, most, found)?;
                        let part = cut(alloc, self.table, crossing, Half::Ahead)?;
                        self.push_between(alloc, high, ahead, &part, most, found)
                    }
                }
            }
        }
    }

    // Adds the facets on a face that has a leaf just behind it, from the solid ahead of its plane.
    #[cycle(ahead)]
    fn push_ahead(
        &self,
        alloc: Global,
        is_inside: bool,
        ahead: Link,
        face: &Face,
        most: u64,
        found: &mut Vec<Facet>,
    ) -> Result<(), CutStop>
        requires faces { AreFacesOver self.now.table.now self.now.forest.now.nodes }
        requires ahead { IsLinkOf self.now.forest.now.nodes ahead }
        requires face { IsFaceOver self.now.table.now face.now }
        requires within { length found.old.items ≤ most }
        ensures { AddsFacetsWithin (facets_ahead is_inside (solid_at self.now ahead)
            (outline_at self.now face.now)) most found.old.items found.new.items result }
    {
        match ahead {
            Link::End(is_ahead_inside) => {
                self.push_wall(alloc, is_inside, is_ahead_inside, face, most, found)
            }
            Link::To(id) => {
                let (own, low, high) = self.forest.at(id);
                let of_face = sides_where_across(alloc, self.table, face, own.plane)?;
                match of_face.class {
                    Class::Behind | Class::On => {
                        self.push_ahead(alloc, is_inside, low, face, most, found)
                    }
                    Class::Ahead => self.push_ahead(alloc, is_inside, high, face, most, found),
                    Class::Across => {
                        let crossing = Crossing {
                            face,
                            number: own.plane,
                            sides: &of_face,
                        };
                        self.push_half(alloc, is_inside, low, crossing, Half::Behind, most, found)?;
                        self.push_half(alloc, is_inside, high, crossing, Half::Ahead, most, found)
                    }
                }
            }
        }
    }

    // Adds the facets on the part of a face in a half space, where a leaf is just behind it. A leaf of
    // the same kind ahead of it gives none, and needs no part.
    #[cycle(ahead)]
    fn push_half(
        &self,
        alloc: Global,
        is_inside: bool,
        ahead: Link,
        crossing: Crossing<'_>,
        half: Half,
        most: u64,
        found: &mut Vec<Facet>,
    ) -> Result<(), CutStop>
        requires faces { AreFacesOver self.now.table.now self.now.forest.now.nodes }
        requires ahead { IsLinkOf self.now.forest.now.nodes ahead }
        requires crossing { IsCrossing self.now.table.now crossing }
        requires within { length found.old.items ≤ most }
        ensures { AddsFacetsWithin (facets_ahead is_inside (solid_at self.now ahead)
            (half_at self.now half crossing.entry)) most found.old.items found.new.items result }
    {
        if is_same_leaf(Link::End(is_inside), ahead) {
            return Ok(());
        }
        let part = cut(alloc, self.table, crossing, half)?;
        self.push_ahead(alloc, is_inside, ahead, &part, most, found)
    }

    // Adds the facet on a face between two leaves, if there is one.
    fn push_wall(
        &self,
        alloc: Global,
        is_inside: bool,
        is_ahead_inside: bool,
        face: &Face,
        most: u64,
        found: &mut Vec<Facet>,
    ) -> Result<(), CutStop>
        requires face { IsFaceOver self.now.table.now face.now }
        requires within { length found.old.items ≤ most }
        ensures { AddsFacetsWithin (facets_facing is_inside is_ahead_inside
            (outline_at self.now face.now)) most
            found.old.items found.new.items result }
    {
        if is_inside == is_ahead_inside {
            return Ok(());
        }
        let polygon = polygon_of(alloc, self.table, face)?;
        push_facing(is_inside, is_ahead_inside, polygon, most, found)
    }
}
