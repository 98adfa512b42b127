//! What is read of documents of pools.
use crate::support::harness::is_said;
use crate::support::report::Report;
use crate::support::rows::{Kind, Row};
use jtree::{Numbers, Tree};
use plan::{Oversized, PFault, PoolLimits, PoolName, Pools, oversized_pool};
use schema::Profile;
use std::alloc::{AllocError, Global};
use std::test::Fail;

/// The code, and the pointer where there is one.
pub fn said(alloc: Global, fault: &PFault) -> Result<String, AllocError> {
    match fault {
        PFault::Form(pointer) => format!(in alloc; "{fault} {pointer:?}"),
        _ => fault.to_string(alloc),
    }
}

/// How many integers, strings, names, trees, paths, fixed paths and present paths there are.
pub fn counts(alloc: Global, pools: &Pools) -> Result<String, AllocError> {
    format!(in alloc;
        "{} {} {} {} {} {} {}",
        pools.integers().len(),
        pools.strings().len(),
        pools.names().len(),
        pools.any().len(),
        pools.paths().members.len(),
        pools.fixed().members.len(),
        pools.present().len()
    )
}

fn name_of(pool: PoolName<'_>) -> &str {
    match pool {
        PoolName::Any => "any",
        PoolName::Fixed => "fixed",
        PoolName::FixedAt(path) => path,
        PoolName::Integers => "integers",
        PoolName::Names => "names",
        PoolName::Numbers => "numbers",
        PoolName::Paths => "paths",
        PoolName::At(path) => path,
        PoolName::Present => "present",
        PoolName::Strings => "strings",
    }
}

/// The code, the pool, how many entries it has, and how many are allowed.
fn too_many(alloc: Global, oversized: Option<Oversized<'_>>) -> Result<String, AllocError> {
    match oversized {
        Some(of) => { format!(in alloc; "P2 {} {} {}", name_of(of.pool), of.found, of.allowed) }
        None => String::from_str(alloc, "P2 of no pool"),
    }
}

/// What is read, counted, or the fault.
fn outcome_of(
    alloc: Global,
    document: &Tree,
    profile: Profile,
    limits: PoolLimits,
) -> Result<String, AllocError> {
    match Pools::read_by(alloc, document, profile, limits) {
        Ok(pools) => counts(alloc, &pools),
        Err(PFault::TooLarge) => too_many(alloc, oversized_pool(document, limits)),
        Err(fault) => said(alloc, &fault),
    }
}

/// Of a document with any number.
pub fn outcome(
    alloc: Global,
    document: &str,
    profile: Profile,
    limits: PoolLimits,
) -> Result<String, Fail> {
    let document = Tree::from_bytes_with(alloc, document.as_bytes(), Numbers::All)?;
    Ok(outcome_of(alloc, &document, profile, limits)?)
}

/// A document, and how many entries there are in each pool, or the fault.
#[derive(Drop)]
pub struct DocumentRow {
    pub profile: Profile,
    pub limits: PoolLimits,
}

impl Kind for DocumentRow {
    fn attempt(&self, report: &mut Report, alloc: Global, row: &Row) -> Result<(), Fail> {
        let found = outcome(alloc, row.text("document"), self.profile, self.limits);
        is_said(report, "what is read", found, row.text("wanted"))
    }
}

/// The limits of this name.
pub fn limits_of(name: &str) -> Result<PoolLimits, Fail> {
    match name {
        "standard" => Ok(PoolLimits::STANDARD),
        "large" => Ok(PoolLimits::LARGE),
        _ => Err(Fail::from("no such limits")),
    }
}
