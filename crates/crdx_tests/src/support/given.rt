//! What plans are made of, and the plans of it.
ghost use Rattle.std.specs.Prelude.{IfOk};
ghost use Rattle.plan.specs.Pools.PlanFault.{HasGoodPaths};

use crate::support::documents::{
    DEFAULTED, FIFTEEN, MAP_LIST, REPEATED, SET, SPEC, TWO_INTEGER_KEYS, TWO_TEXTS, ZERO_AND_ONE,
    ZERO_AND_SEVEN,
};
use crate::support::harness::{pools_by, schema_by};
use crate::support::rows::Row;
use plan::{Plan, Pools};
use schema::Profile;
use std::alloc::Global;
use std::test::Fail;
use stored::Schema;

/// What a plan is made of: a schema and pools, which are read by a profile, and the most nodes of a sample.
#[derive(Clone, Copy)]
pub struct Given<'a> {
    pub profile: Profile,
    pub schema: &'a str,
    pub pools: &'a str,
    pub limit: u32,
}

impl Given<'_> {
    pub fn schema(self, alloc: Global) -> Result<Schema, Fail> {
        schema_by(alloc, self.profile, self.schema)
    }

    pub fn pools(self, alloc: Global) -> Result<Pools, Fail> {
        pools_by(alloc, self.profile, self.pools)
    }
}

/// What a row says that a plan is made of.
pub fn given_of(row: &Row) -> Given<'_> {
    Given {
        profile: Profile::Core,
        schema: row.text("schema"),
        pools: row.text("pools"),
        limit: row.small("limit"),
    }
}

/// The plan of what is given.
pub fn made(alloc: Global, given: Given<'_>) -> Result<Plan<u64>, Fail>
    ensures { IfOk result (λ plan. HasGoodPaths plan.root plan.pools) }
{
    let schema = given.schema(alloc)?;
    let pools = given.pools(alloc)?;
    Ok(Plan::new(alloc, schema, pools, given.limit)?)
}

/// An integer and a boolean. The samples are `TEN_LINES`.
pub const TWO_FIELDS: Given<'static> = Given {
    profile: Profile::Core,
    schema: SPEC,
    pools: ZERO_AND_ONE,
    limit: 4,
};

/// A map list of items with two keys.
pub const MAP_LISTS: Given<'static> = Given {
    profile: Profile::Core,
    schema: MAP_LIST,
    pools: TWO_TEXTS,
    limit: 8,
};

/// A map list with two keys. It has 74 samples.
pub const TWO_KEYED_LISTS: Given<'static> = Given {
    profile: Profile::Core,
    schema: TWO_INTEGER_KEYS,
    pools: ZERO_AND_ONE,
    limit: 9,
};

/// Fifteen objects of three booleans, with 8^15 samples.
pub const FIFTEEN_ITEMS: Given<'static> = Given {
    profile: Profile::Core,
    schema: FIFTEEN,
    pools: "{}",
    limit: 63,
};

/// Sets of two integers. The samples are `SIX_SETS`.
pub const SETS: Given<'static> = Given {
    profile: Profile::Core,
    schema: SET,
    pools: REPEATED,
    limit: 4,
};

/// A field with a default.
pub const DEFAULTS: Given<'static> = Given {
    profile: Profile::Core,
    schema: DEFAULTED,
    pools: ZERO_AND_SEVEN,
    limit: 3,
};
