//! The sentences of a file, each resolved when those before it are.
ghost use Rattle.std.specs.Prelude.{◌≡◌, ℕ, ◌+◌, List, map, length, [], ◌∷◌, ◌++◌, Some, None, Ok, Err, IfOk, IfErr, OnOk};
ghost use Rattle.std.specs.List.{AllByRecursion};
ghost use Rattle.std.specs.Option.{IfSome};
ghost use Rattle.cmd_tree.specs.declared.tree.Proc.{Proc};
ghost use Rattle.cmd_text.specs.declared.file.Factor.TheVariants as factors;
ghost use Rattle.cmd_rename.specs.Symbols.{put_each, symbols_of};
ghost use Rattle.cmd_rename.specs.Table.{IsListed};
ghost use Rattle.cmd_expand.specs.Names.{AreIn, IsFactorIn, number, with_name};
ghost use Rattle.cmd_expand.specs.Pairs.{renamed, first_fault};
ghost use Rattle.cmd_expand.specs.Expansion.{Known, body, definition, limited, defined_by, name_of, is_named, refused_of};
ghost use Rattle.cmd_expand.specs.Expansion as spec;
ghost use Rattle.cmd_expand.specs.Mirror.Plan.{procs_of_parts, procs_known, IsBelow, IsLine, IsShape, IsDraft, Added, AddedFactor, IsPlan, IsPlanOf, Defined, AreLines};

use crate::faults::{check_pairs, list_all, tally_all};
use crate::pairs::{Pair, number_pairs, rename_symbols, set_pairs};
use crate::refusal::ExpandRefusal;
use cmd_rename::{Table, list_symbol, proc_symbols};
use cmd_text::{Factor, NameTable, Named, Sentence};
use cmd_tree::{MAX_PLACES, MAX_PROCESSES, MAX_SYMBOLS, Name, Proc};
use std::alloc::{AllocError, Global};

/// A process that is written out, or the use of the definition of this number with its symbols renamed.
#[derive(Drop)]
pub enum Part<'a> {
    Own(&'a Proc),
    Use { of: usize, pairs: Vec<Pair> },
}

/// A sentence: its parts, the symbols of its processes in order of first occurrence, and how many processes and
/// symbol places they have. `shape` is the number of a line with the same processes under other symbols, which is
/// no single use; it is the line's own number, if the line is none.
#[derive(Drop)]
pub struct Line<'a> {
    pub parts: Vec<Part<'a>>,
    pub symbols: Vec<u32>,
    pub procs: u64,
    pub places: u64,
    pub shape: usize,
}

/// The tables with which renamings are checked.
#[derive(Drop)]
pub struct Tables {
    pub fresh: Table,
    pub owners: Table,
    pub symbols: Table,
    pub earlier: Table,
    pub listed: Table,
}

/// What is resolved so far: a line for each definition, whose names are `defined`.
#[derive(Drop)]
pub struct Plan<'a> {
    pub sentences: &'a [Sentence],
    pub names: NameTable,
    pub defined: NameTable,
    pub lines: Vec<Line<'a>>,
    pub tables: Tables,
}

/// What is gathered of a sentence.
#[derive(Drop)]
struct Draft<'a> {
    parts: Vec<Part<'a>>,
    symbols: Vec<u32>,
    procs: u64,
    places: u64,
}

impl Tables {
    pub fn new(alloc: Global) -> Tables {
        Tables {
            fresh: Table::new(alloc),
            owners: Table::new(alloc),
            symbols: Table::new(alloc),
            earlier: Table::new(alloc),
            listed: Table::new(alloc),
        }
    }
}

/// The sum. No memory holds as many as would not fit.
fn total(a: u64, b: u64) -> Result<u64, AllocError>
    ensures { IfOk result (λ sum. sum ≡ a + b) }
{
    match a.checked_add(b) {
        Some(sum) => Ok(sum),
        None => Err(AllocError),
    }
}

/// Why no definition of the name is there.
fn missing(sentences: &[Sentence], named: &Named) -> ExpandRefusal
    ensures { (names : List (List ℕ)) → refused_of result ≡ Some (spec.missing names sentences.now named.now) }
{
    for sentence in sentences {
        if defines(sentence, &named.name) {
            return ExpandRefusal::UsedBeforeDefined { at: named.at };
        }
    }
    ExpandRefusal::UnknownName { at: named.at }
}

fn defines(sentence: &Sentence, name: &Name) -> bool
    ensures { result ≡ is_named name.now sentence.now.name }
{
    match &sentence.name {
        Some(defined) => name == defined,
        None => false,
    }
}

/// Puts these symbols, one after the other, behind those that are listed.
fn add_symbols(symbols: &mut Vec<u32>, listed: &mut Table, more: &[u32]) -> Result<(), AllocError>
    requires { IsListed listed.old symbols.old.items }
    ensures symbols { OnOk result (symbols.new.items ≡ put_each symbols.old.items more.now) }
    ensures listed { OnOk result (IsListed listed.new symbols.new.items) }
{
    for symbol in more {
        list_symbol(symbols, listed, *symbol)?;
    }
    Ok(())
}

fn add_own<'a>(
    alloc: Global,
    draft: &mut Draft<'a>,
    listed: &mut Table,
    process: &'a Proc,
) -> Result<(), AllocError>
    requires { IsListed listed.old draft.old.symbols.items }
    ensures listed { OnOk result (IsListed listed.new draft.new.symbols.items) }
    ensures below { OnOk result ((n : ℕ) → AllByRecursion (IsBelow n) draft.old.parts.items → AllByRecursion (IsBelow n) draft.new.parts.items) }
    ensures added { OnOk result ((ms : List (List Proc)) → IsDraft ms draft.old → Added ms draft.old draft.new (process.now ∷ [])) }
{
    let symbols = proc_symbols(alloc, process)?;
    draft.procs = total(draft.procs, 1)?;
    draft.places = total(draft.places, symbols.len() as u64)?;
    add_symbols(&mut draft.symbols, listed, symbols.as_slice())?;
    draft.parts.push(Part::Own(process))?;
    Ok(())
}

/// The names that the symbols of a definition have after a renaming.
fn use_symbols(
    alloc: Global,
    tables: &mut Tables,
    symbols: &[u32],
    pairs: &[Pair],
) -> Result<Vec<u32>, ExpandRefusal>
    ensures listed { tables.new.listed ≡ tables.old.listed }
    ensures fresh { IfOk result (λ fresh. fresh.items ≡ map (renamed pairs.now) symbols.now) }
    ensures ok { IfOk result (λ _. first_fault symbols.now pairs.now ≡ None) }
    ensures err { IfErr result (λ e. IfSome (refused_of e) (λ r. first_fault symbols.now pairs.now ≡ Some r)) }
{
    set_pairs(&mut tables.fresh, pairs)?;
    let fresh = rename_symbols(alloc, &tables.fresh, symbols)?;
    if pairs.is_empty() {
        return Ok(fresh);
    }
    tally_all(&mut tables.owners, fresh.as_slice())?;
    list_all(&mut tables.symbols, symbols)?;
    match check_pairs(pairs, &tables.symbols, &tables.owners, &mut tables.earlier) {
        Ok(()) => Ok(fresh),
        Err(refusal) => Err(refusal),
    }
}

fn add_use<'a>(
    alloc: Global,
    plan: &mut Plan<'a>,
    draft: &mut Draft<'a>,
    named: &Named,
) -> Result<(), ExpandRefusal>
    requires known { AreIn plan.old.names named.now.renames }
    requires listed { IsListed plan.old.tables.listed draft.old.symbols.items }
    ensures listed { OnOk result (IsListed plan.new.tables.listed draft.new.symbols.items) }
    ensures names { OnOk result (plan.new.names ≡ plan.old.names) }
    ensures sentences { OnOk result (plan.new.sentences.now ≡ plan.old.sentences.now) }
    ensures lines { OnOk result (plan.new.lines.items ≡ plan.old.lines.items) }
    ensures below { OnOk result (AllByRecursion (IsBelow (length plan.old.lines.items)) draft.old.parts.items
        → AllByRecursion (IsBelow (length plan.old.lines.items)) draft.new.parts.items) }
    ensures defined { OnOk result ((known : List Known) → IsPlan known plan.old → plan.new.defined ≡ plan.old.defined) }
    ensures added { OnOk result ((known : List Known) → IsPlan known plan.old → IsDraft (procs_known known) draft.old →
        AddedFactor known plan.old draft.old draft.new (factors.Named named.now)) }
    ensures err { IfErr result (λ e. IfSome (refused_of e) (λ r. (known : List Known) → IsPlan known plan.old →
        spec.factor plan.old.names plan.old.sentences.now known (factors.Named named.now) ≡ Err r)) }
{
    let of = plan.defined.insert(alloc, named.name.bytes())?;
    let Some(line) = plan.lines.get(of) else {
        return Err(missing(plan.sentences, named));
    };
    let pairs = number_pairs(alloc, &mut plan.names, named.renames.as_slice())?;
    let fresh = match use_symbols(
        alloc,
        &mut plan.tables,
        line.symbols.as_slice(),
        pairs.as_slice(),
    ) {
        Ok(fresh) => fresh,
        Err(refusal) => return Err(refusal),
    };
    draft.procs = total(draft.procs, line.procs)?;
    draft.places = total(draft.places, line.places)?;
    add_symbols(
        &mut draft.symbols,
        &mut plan.tables.listed,
        fresh.as_slice(),
    )?;
    draft.parts.push(Part::Use { of, pairs })?;
    Ok(())
}

/// Adds a factor of the sentence to what is gathered.
fn add_factor<'a>(
    alloc: Global,
    plan: &mut Plan<'a>,
    draft: &mut Draft<'a>,
    factor: &'a Factor,
) -> Result<(), ExpandRefusal>
    requires known { IsFactorIn plan.old.names factor.now }
    requires listed { IsListed plan.old.tables.listed draft.old.symbols.items }
    ensures listed { OnOk result (IsListed plan.new.tables.listed draft.new.symbols.items) }
    ensures names { OnOk result (plan.new.names ≡ plan.old.names) }
    ensures sentences { OnOk result (plan.new.sentences.now ≡ plan.old.sentences.now) }
    ensures lines { OnOk result (plan.new.lines.items ≡ plan.old.lines.items) }
    ensures below { OnOk result (AllByRecursion (IsBelow (length plan.old.lines.items)) draft.old.parts.items
        → AllByRecursion (IsBelow (length plan.old.lines.items)) draft.new.parts.items) }
    ensures defined { OnOk result ((known : List Known) → IsPlan known plan.old → plan.new.defined ≡ plan.old.defined) }
    ensures added { OnOk result ((known : List Known) → IsPlan known plan.old → IsDraft (procs_known known) draft.old →
        AddedFactor known plan.old draft.old draft.new factor.now) }
    ensures err { IfErr result (λ e. IfSome (refused_of e) (λ r. (known : List Known) → IsPlan known plan.old →
        spec.factor plan.old.names plan.old.sentences.now known factor.now ≡ Err r)) }
{
    match factor {
        Factor::Own(process) => {
            add_own(alloc, draft, &mut plan.tables.listed, process)?;
            Ok(())
        }
        Factor::Named(named) => add_use(alloc, plan, draft, named),
    }
}

fn check_limits(draft: &Draft) -> Result<(), ExpandRefusal>
    ensures ok { OnOk result ((ms : List (List Proc)) → IsDraft ms draft.now →
        limited (procs_of_parts ms draft.now.parts.items) ≡ Ok (procs_of_parts ms draft.now.parts.items)) }
    ensures err { IfErr result (λ e. IfSome (refused_of e) (λ r. (ms : List (List Proc)) → IsDraft ms draft.now →
        limited (procs_of_parts ms draft.now.parts.items) ≡ Err r)) }
{
    let symbols = draft.symbols.len();
    if symbols > MAX_SYMBOLS {
        return Err(ExpandRefusal::TooManySymbols {
            count: symbols as u64,
        });
    }
    if draft.procs > MAX_PROCESSES as u64 {
        return Err(ExpandRefusal::TooManyProcs { count: draft.procs });
    }
    if draft.places > MAX_PLACES as u64 {
        return Err(ExpandRefusal::TooManyPlaces {
            count: draft.places,
        });
    }
    Ok(())
}

/// The number of a line with the same processes under other symbols: that of the line itself, if it is no single use.
fn shape_of(lines: &[Line], draft: &Draft) -> usize
    ensures { (ms : List (List Proc)) → AreLines ms lines.now → IsDraft ms draft.now →
        AllByRecursion (IsBelow (length lines.now)) draft.now.parts.items →
        IsShape ms (length lines.now) (procs_of_parts ms draft.now.parts.items) result }
{
    match draft.parts.as_slice() {
        [part] => shape_of_part(lines, part, draft.symbols.len()),
        _ => lines.len(),
    }
}

/// The same for a line with this part alone and as many symbols.
fn shape_of_part(lines: &[Line], part: &Part, symbols: usize) -> usize
    ensures { (ms : List (List Proc)) → AreLines ms lines.now → IsBelow (length lines.now) part.now →
        symbols ≡ length (symbols_of (procs_of_parts ms (part.now ∷ []))) →
        IsShape ms (length lines.now) (procs_of_parts ms (part.now ∷ [])) result }
{
    match part {
        Part::Own(_) => lines.len(),
        Part::Use { of, pairs: _ } => match lines.get(*of) {
            Some(line) if line.symbols.len() == symbols => line.shape,
            _ => lines.len(),
        },
    }
}

/// The line of a sentence with these factors.
pub fn resolve<'a>(
    alloc: Global,
    plan: &mut Plan<'a>,
    factors: &'a [Factor],
) -> Result<Line<'a>, ExpandRefusal>
    requires known { AllByRecursion (IsFactorIn plan.old.names) factors.now }
    ensures names { OnOk result (plan.new.names ≡ plan.old.names) }
    ensures sentences { OnOk result (plan.new.sentences.now ≡ plan.old.sentences.now) }
    ensures lines { OnOk result (plan.new.lines.items ≡ plan.old.lines.items) }
    ensures defined { OnOk result ((known : List Known) → IsPlan known plan.old → plan.new.defined ≡ plan.old.defined) }
    ensures line { IfOk result (λ line. (known : List Known) → IsPlan known plan.old →
        IsLine (procs_known known) (length plan.old.lines.items) line (procs_of_parts (procs_known known) line.parts.items)) }
    ensures meaning { IfOk result (λ line. (known : List Known) → IsPlan known plan.old →
        body plan.old.names plan.old.sentences.now known factors.now ≡ Ok (procs_of_parts (procs_known known) line.parts.items)) }
    ensures err { IfErr result (λ e. IfSome (refused_of e) (λ r. (known : List Known) → IsPlan known plan.old →
        body plan.old.names plan.old.sentences.now known factors.now ≡ Err r)) }
{
    let mut draft = Draft {
        parts: Vec::new(alloc),
        symbols: Vec::new(alloc),
        procs: 0,
        places: 0,
    };
    plan.tables.listed.clear();
    for factor in factors {
        match add_factor(alloc, plan, &mut draft, factor) {
            Ok(()) => {}
            Err(refusal) => return Err(refusal),
        }
    }
    match check_limits(&draft) {
        Ok(()) => {}
        Err(refusal) => return Err(refusal),
    }
    let shape = shape_of(plan.lines.as_slice(), &draft);
    Ok(Line {
        parts: draft.parts,
        symbols: draft.symbols,
        procs: draft.procs,
        places: draft.places,
        shape,
    })
}

/// The place of the name of a definition, which is put at the end where it is not there.
fn place_of(
    alloc: Global,
    defined: &mut NameTable,
    sentence: &Sentence,
) -> Result<usize, AllocError>
    ensures place { IfOk result (λ place. place ≡ number defined.old (name_of sentence.now.name)) }
    ensures names { OnOk result (defined.new ≡ with_name defined.old (name_of sentence.now.name)) }
{
    match &sentence.name {
        Some(name) => {
            let place = defined.insert(alloc, name.bytes())?;
            Ok(place)
        }
        None => {
            let place = defined.insert(alloc, &[])?;
            Ok(place)
        }
    }
}

/// Puts the line of a definition behind the others.
pub fn define<'a>(
    alloc: Global,
    plan: &mut Plan<'a>,
    sentence: &'a Sentence,
) -> Result<(), ExpandRefusal>
    requires known { AllByRecursion (IsFactorIn plan.old.names) sentence.now.factors }
    ensures names { OnOk result (plan.new.names ≡ plan.old.names) }
    ensures sentences { OnOk result (plan.new.sentences.now ≡ plan.old.sentences.now) }
    ensures ok { OnOk result ((known : List Known) → IsPlanOf known plan.old → Defined known plan.old plan.new sentence.now) }
    ensures err { IfErr result (λ e. IfSome (refused_of e) (λ r. (known : List Known) → IsPlanOf known plan.old →
        definition plan.old.names plan.old.sentences.now known sentence.now ≡ Err r)) }
{
    let place = place_of(alloc, &mut plan.defined, sentence)?;
    if place < plan.lines.len() {
        return Err(ExpandRefusal::DefinedTwice { at: sentence.at });
    }
    let line = match resolve(alloc, plan, sentence.factors.as_slice()) {
        Ok(line) => line,
        Err(refusal) => return Err(refusal),
    };
    plan.lines.push(line)?;
    Ok(())
}
