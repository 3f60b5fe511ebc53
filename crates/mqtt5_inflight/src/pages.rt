//! Where what is known of each packet identifier in use stands, in an ordered map of pages of ids.

ghost use Rattle.std.specs.Prelude.{◌≡◌, ◌≢◌, ◌<◌, ◌≤◌, ◌/◌, ◌%◌, ℕ, false, None, Some, IsTrue, IfOk, IfNone, IfSome, OnOk, OnErr, option_map, slice_index_or};
ghost use Rattle.std.specs.Ordering.{nat_cmp};
ghost use Rattle.std.specs.BTreeMap.{get as page_of};
ghost use Rattle.std.specs.FinMap as map;
ghost use Rattle.mqtt5_inflight.specs.Paged.{IsBlank, SamePlaces, SetsPlace, place_at};

use crate::page::{IDS, Page};
use std::alloc::{AllocError, Global};
use std::collections::BTreeMap;
use std::marker::Model;

/// How many pages the ids have.
const PAGES: u16 = 1024;

/// The place of each id in use. An empty page goes, but for the last one that became empty.
/// Contracts see a map.
#[derive(Debug, Drop)]
pub struct Pages {
    pages: BTreeMap<u16, Page>,
    /// The number of the last page that became empty.
    blank: Option<u16>,
    alloc: Global,
}

impl Model for Pages {
    ghost use Rattle.std.specs.Prelude.{ℕ};
    ghost use Rattle.std.specs.Coded.{coded_ℕ};
    ghost use Rattle.std.specs.FinMap as map;
    ghost use Rattle.mqtt5_inflight.specs.Paged.{Places, places_of};

    ghost Value = { Places };

    ghost coded = { map.code coded_ℕ coded_ℕ };

    ghost view = { λ a. places_of a.pages };
}

impl Pages {
    /// No id is in use. Takes no memory.
    pub fn new(alloc: Global) -> Pages
        ensures { result ≡ map.empty }
    {
        Pages {
            pages: BTreeMap::new(alloc),
            blank: None,
            alloc,
        }
    }

    /// The place of an id.
    #[inline]
    pub fn get(&self, id: u16) -> Option<usize>
        ensures { result ≡ map.get self.now id }
    {
        let page = self.pages.get(&(id / IDS))?;
        page.get((id % IDS) as usize)
    }

    /// Gives an id, which is free, a place.
    #[inline]
    pub fn insert(&mut self, id: u16, place: usize) -> Result<(), AllocError>
        requires { map.get self.old id ≡ None }
        ensures ok { OnOk result (self.new ≡ map.insert self.old id place) }
        ensures err { OnErr result (self.new ≡ self.old) }
    {
        if put(&mut self.pages, id, place) {
            return Ok(());
        }
        add_page(&mut self.pages, self.blank, self.alloc, id, place)?;
        Ok(())
    }

    /// Makes an id free, and tells its place.
    #[inline]
    pub fn remove(&mut self, id: u16) -> Option<usize>
        ensures place { result ≡ map.get self.old id }
        ensures free { self.new ≡ map.remove self.old id }
    {
        let (place, is_blank) = take(&mut self.pages, id)?;
        self.blank = let_go(&mut self.pages, self.blank, id / IDS, is_blank);
        Some(place)
    }

    /// Makes each id free.
    pub fn clear(&mut self)
        ensures { self.new ≡ map.empty }
    {
        self.pages.clear();
        self.blank = None;
    }

    /// The first id in use above another, and its place.
    pub fn next_after(&self, after: u16) -> Option<(u16, usize)>
        ensures found { IfSome result (λ e. (after < e.0) × (map.get self.now e.0 ≡ Some e.1)) }
        ensures first { IfSome result (λ e.
            (q : ℕ) → after < q → q < e.0 → map.get self.now q ≡ None) }
        ensures last { IfNone result ((q : ℕ) → after < q → map.get self.now q ≡ None) }
    {
        let mut number = after / IDS;
        while number < PAGES {
            let (there, page) = page_from(&self.pages, number)?;
            if let Some(found) = next_in(page, there, after) {
                return Some(found);
            }
            number = there + 1;
        }
        None
    }
}

impl Clone for Pages {
    ghost is_clone = { λ pages copy. copy ≡ pages };

    fn clone(&self) -> Result<Pages, AllocError> {
        Ok(Pages {
            pages: copied_pages(&self.pages)?,
            blank: self.blank,
            alloc: self.alloc,
        })
    }
}

/// A clone of pages, which has the same entries.
fn copied_pages(pages: &BTreeMap<u16, Page>) -> Result<BTreeMap<u16, Page>, AllocError>
    ensures { IfOk result (λ copy. copy.entries ≡ pages.now.entries) }
{
    pages.clone()
}

/// Gives an id, which is free, a place in its page, if that is there.
#[inline]
fn put(pages: &mut BTreeMap<u16, Page>, id: u16, place: usize) -> bool
    requires { place_at pages.old id ≡ None }
    ensures put { IsTrue result → SetsPlace pages.old pages.new id (Some place) }
    ensures absent { result ≡ false → page_of nat_cmp pages.new (id / 64) ≡ None }
    ensures same { result ≡ false → SamePlaces pages.old pages.new }
{
    let Some(page) = pages.get_mut(&(id / IDS)) else {
        return false;
    };
    page.put((id % IDS) as usize, place);
    true
}

/// Gives an id a place in a page of its own.
#[inline(never)]
fn add_page(
    pages: &mut BTreeMap<u16, Page>,
    blank: Option<u16>,
    alloc: Global,
    id: u16,
    place: usize,
) -> Result<(), AllocError>
    requires { page_of nat_cmp pages.old (id / 64) ≡ None }
    ensures ok { OnOk result (SetsPlace pages.old pages.new id (Some place)) }
    ensures err { OnErr result (SamePlaces pages.old pages.new) }
{
    let mut page = blank_page(pages, blank, alloc)?;
    page.put((id % IDS) as usize, place);
    pages.insert(id / IDS, page)?;
    Ok(())
}

/// An empty page: the one that is kept, or another.
fn blank_page(
    pages: &mut BTreeMap<u16, Page>,
    blank: Option<u16>,
    alloc: Global,
) -> Result<Page, AllocError>
    ensures blank { IfOk result IsBlank }
    ensures same { SamePlaces pages.old pages.new }
{
    let Some(number) = blank else {
        return Page::new(alloc);
    };
    match take_blank(pages, number) {
        Some(page) => Ok(page),
        None => Page::new(alloc),
    }
}

/// Takes a page out, if it is empty.
fn take_blank(pages: &mut BTreeMap<u16, Page>, number: u16) -> Option<Page>
    ensures blank { IfSome result IsBlank }
    ensures same { SamePlaces pages.old pages.new }
{
    let page = pages.get(&number)?;
    if !page.is_blank() {
        return None;
    }
    pages.remove(&number)
}

/// Makes an id free, and tells its place and whether its page is empty now.
#[inline]
fn take(pages: &mut BTreeMap<u16, Page>, id: u16) -> Option<(usize, bool)>
    ensures place { option_map (λ e. e.0) result ≡ place_at pages.old id }
    ensures free { SetsPlace pages.old pages.new id None }
{
    let page = pages.get_mut(&(id / IDS))?;
    let place = page.take((id % IDS) as usize)?;
    Some((place, page.is_blank()))
}

/// Keeps a page that became empty, in place of the one before.
#[inline]
fn let_go(
    pages: &mut BTreeMap<u16, Page>,
    blank: Option<u16>,
    number: u16,
    is_blank: bool,
) -> Option<u16>
    ensures { SamePlaces pages.old pages.new }
{
    if !is_blank {
        return blank;
    }
    match blank {
        Some(old) if old != number => drop(take_blank(pages, old)),
        _ => {}
    }
    Some(number)
}

/// The first page that is there from a number on, and its number.
fn page_from(pages: &BTreeMap<u16, Page>, number: u16) -> Option<(u16, &Page)>
    requires { number < 1024 }
    ensures within { IfSome result (λ e. (number ≤ e.0) × (e.0 < 1024)) }
    ensures found { IfSome result (λ e. page_of nat_cmp pages.now e.0 ≡ Some e.1.now) }
    ensures first { IfSome result (λ e.
        (k : ℕ) → number ≤ k → k < e.0 → page_of nat_cmp pages.now k ≡ None) }
    ensures last { IfNone result (
        (k : ℕ) → number ≤ k → k < 1024 → page_of nat_cmp pages.now k ≡ None) }
{
    if let Some(page) = pages.get(&number) {
        return Some((number, page));
    }
    let (there, page) = pages.range(number..PAGES).next()?;
    Some((*there, page))
}

/// The first id in use of a page that is above another, and its place.
fn next_in(page: &Page, number: u16, after: u16) -> Option<(u16, usize)>
    requires { number < 1024 }
    ensures found { IfSome result (λ e.
        (after < e.0) × (slice_index_or page.now (e.0 % 64) None ≡ Some e.1)) }
    ensures within { IfSome result (λ e. e.0 / 64 ≡ number) }
    ensures first { IfSome result (λ e.
        (q : ℕ) → q / 64 ≡ number → after < q → q < e.0
        → slice_index_or page.now (q % 64) None ≡ None) }
    ensures last { IfNone result (
        (q : ℕ) → q / 64 ≡ number → after < q → slice_index_or page.now (q % 64) None ≡ None) }
{
    let first = (IDS * number) as usize;
    let (offset, place) = page.next_from((after as usize + 1).saturating_sub(first))?;
    let id = IDS * number + offset as u16;
    Some((id, place))
}
