//! Rows of numbers by number, filled link by link: one pass over the links makes them all.
ghost use Rattle.std.specs.Prelude.{◌≡◌, ◌+◌, ◌++◌, ◌<◌, ◌^◌, [], ◌∷◌, map, length, replicate, get_or, IfOk, OnOk};
ghost use Rattle.std.specs.List.{range_with_len};
ghost use Rattle.plain_split.specs.Mirror.Rows.{with_link, tos, back_from, back, first_or};

use std::alloc::{AllocError, Global};

/// Leads from one number to another.
#[derive(Debug, Clone, Copy, PartialEq, Eq)]
pub struct Link {
    pub from: u32,
    pub to: u32,
}

/// So many rows with nothing in them.
pub fn no_rows<T: Drop>(alloc: Global, many: usize) -> Result<Vec<Vec<T>>, AllocError>
    ensures { IfOk result (λ it. map (λ v. v.items) it.items ≡ replicate many []) }
{
    let mut rows = Vec::new(alloc);
    while rows.len() < many {
        rows.push(Vec::new(alloc))?;
    }
    Ok(rows)
}

/// Adds a link; one that leads from no row is passed over.
fn add_link(rows: &mut [Vec<u32>], link: Link) -> Result<(), AllocError>
    ensures len { length rows.new ≡ length rows.old }
    ensures rows { OnOk result (map (λ v. v.items) rows.new ≡ with_link link (map (λ v. v.items) rows.old)) }
{
    let row = link.from as usize;
    if row < rows.len() {
        rows[row].push(link.to)?;
    }
    Ok(())
}

/// Where the links lead from each number below `many`, in their order.
pub fn rows_of(alloc: Global, many: usize, links: &[Link]) -> Result<Vec<Vec<u32>>, AllocError>
    ensures { IfOk result (λ it. map (λ v. v.items) it.items ≡ map (tos links.now) (range_with_len 0 many)) }
{
    let mut rows = no_rows(alloc, many)?;
    for link in links {
        add_link(rows.as_mut_slice(), *link)?;
    }
    Ok(rows)
}

/// Adds a link from each number of a row back to the row.
fn push_back(links: &mut Vec<Link>, row: &[u32], number: u32) -> Result<(), AllocError>
    ensures { OnOk result (links.new.items ≡ links.old.items ++ back_from number row.now) }
{
    for from in row {
        links.push(Link {
            from: *from,
            to: number,
        })?;
    }
    Ok(())
}

/// The links from each number to the rows that have it.
pub fn back_links(alloc: Global, rows: &[Vec<u32>]) -> Result<Vec<Link>, AllocError>
    requires { length rows.now < 2 ^ 32 }
    ensures { IfOk result (λ it. it.items ≡ back 0 (map (λ v. v.items) rows.now)) }
{
    let mut links = Vec::new(alloc);
    for (number, row) in rows.iter().enumerate() {
        push_back(&mut links, row.as_slice(), number as u32)?;
    }
    Ok(links)
}

/// The first number of a row, or `none`.
fn first_or(none: u32, row: &[u32]) -> u32
    ensures { result ≡ first_or none row.now }
{
    match row {
        [] => none,
        [first, ..] => *first,
    }
}

/// The first number of each row, or `none`.
pub fn firsts(alloc: Global, rows: &[Vec<u32>], none: u32) -> Result<Vec<u32>, AllocError>
    ensures { IfOk result (λ it. it.items ≡ map (first_or none) (map (λ v. v.items) rows.now)) }
{
    let mut all = Vec::new(alloc);
    for row in rows {
        all.push(first_or(none, row.as_slice()))?;
    }
    Ok(all)
}
