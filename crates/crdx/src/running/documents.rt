//! The schema, the pools and the tree to go on from that a request names.
ghost use Rattle.std.specs.Prelude.{◌≡◌, true, Ok, IfOk, IfErr, OnOk, option_map};
ghost use Rattle.jtree.specs.Data.{Data};
ghost use Rattle.jtree.specs.ReadsWith.{ReadsWith};
ghost use Rattle.jtree.specs.View.{data_of};
ghost use Rattle.schema.specs.Document.Raw.{Raw};
ghost use Rattle.schema.specs.Nodes.ByPlace.{AreNodesOf};
ghost use Rattle.schema.specs.Rules.Breaks.{IsUnbroken};
ghost use Rattle.stored.specs.Schemas.Accepted.{IsBroken};
ghost use Rattle.crdx.specs.Internal.Cause.{IsReadFailure, IsReadCause, IsSchemaCause, IsWrittenCause, IsPoolsCause, IsAfterCause, IsTextCause};
ghost use Rattle.crdx.specs.Program.Requested.{numbers_of, limits_of, reading_of, pool_limits_of, ArePools, IsAfter};
ghost use Rattle.crdx.specs.Program.Requested.{IsRequestedCrd, IsRequestedFrom, IsRequestedWritten, HasPatterns};
ghost use Rattle.crdx.specs.Program.Documents.{AreAmong, AreLinesAmong, file_name};
ghost use Rattle.crdx.specs.Program.Envelope.{body_of as body};
ghost use Rattle.crdx.specs.Program.Profiles.{numbers_by};

use crate::arguments::{CommonArguments, PlanArguments};
use crate::envelope::split;
use crate::inputs::{InFault, InputName, Inputs};
use crate::profile::numbers_by;
use crate::running::causes::{Cause, Input};
use crate::running::refusal::{Refusal, Subject};
use crate::running::schema_formats::compile_formats;
use crate::running::schema_patterns::compile_patterns;
use jtree::{JFault, Text, Tree};
use patterns::Pattern;
use plan::{PoolLimits, Pools};
use schema::{Crd, Limits, Profile, RawSchema, Reading, read_crd_by};
use std::alloc::Global;
use stored::{Schema, accept};

/// A CustomResourceDefinition, and what is read of it.
#[derive(Drop)]
pub(crate) struct Definition {
    pub document: Tree,
    pub crd: Crd,
}

/// A schema that breaks no rule, with the CustomResourceDefinition that has it, and the group and the kind of its resources.
#[derive(Drop)]
pub(crate) struct Accepted {
    pub document: Tree,
    pub group: Text,
    pub kind: Text,
    pub schema: Schema,
}

/// A schema as it is written, with its patterns and the expressions of its formats.
#[derive(Drop)]
pub(crate) struct WrittenSchema {
    pub schema: RawSchema,
    pub patterns: Vec<Pattern>,
}

/// Pools, with their document where one is named.
#[derive(Drop)]
pub(crate) struct PoolsRead {
    pub document: Option<Tree>,
    pub pools: Pools,
}

/// The schema of a version of the CustomResourceDefinition of this name, where it breaks no rule.
pub(crate) fn accepted_schema<'a, I: Inputs>(
    alloc: Global,
    arguments: &CommonArguments<'a>,
    inputs: &mut I,
) -> Result<Accepted, Refusal<'a>>
    ensures accepted { IfOk result (λ a. (raw : Raw) × IsRequestedCrd (I.has inputs.old) arguments.now a.group a.kind raw × IsUnbroken (IsBroken raw) × AreNodesOf true a.schema raw) }
    ensures cause { IfErr result (λ r. IsSchemaCause (I.has inputs.old) (I.failures inputs.old) (I.failures inputs.new) arguments.now r.cause) }
    ensures stays { AreAmong (I.has inputs.new) (I.has inputs.old) }
    ensures lines { AreLinesAmong (I.lines inputs.new) (I.lines inputs.old) }
    ensures unfailed { OnOk result (I.failures inputs.new ≡ I.failures inputs.old) }
{
    let Definition { document, crd } = read_definition(alloc, arguments, inputs)?;
    match accept(alloc, crd.raw) {
        Ok(schema) => Ok(Accepted {
            document,
            group: crd.group,
            kind: crd.kind,
            schema,
        }),
        Err(refused) => Err(Refusal {
            cause: refused.into(),
            subject: Subject::Definition(document),
        }),
    }
}

/// What is read of the CustomResourceDefinition of this name.
pub(crate) fn read_definition<'a, I: Inputs>(
    alloc: Global,
    arguments: &CommonArguments<'a>,
    inputs: &mut I,
) -> Result<Definition, Refusal<'a>>
    ensures ok { IfOk result (λ d. IsRequestedFrom (data_of d.document) (I.has inputs.old) arguments.now d.crd.group d.crd.kind d.crd.raw) }
    ensures cause { IfErr result (λ r. IsReadCause (I.has inputs.old) (I.failures inputs.old) (I.failures inputs.new) arguments.now r.cause) }
    ensures stays { AreAmong (I.has inputs.new) (I.has inputs.old) }
    ensures lines { AreLinesAmong (I.lines inputs.new) (I.lines inputs.old) }
    ensures unfailed { OnOk result (I.failures inputs.new ≡ I.failures inputs.old) }
{
    let document = read_document(inputs, arguments.profile, Input::Crd, arguments.crd)?;
    match read_crd_by(alloc, &document, arguments.version, reading_of(arguments)) {
        Ok(crd) => Ok(Definition { document, crd }),
        Err(fault) => Err(Refusal {
            cause: fault.into(),
            subject: Subject::Definition(document),
        }),
    }
}

/// The schema of a version of the CustomResourceDefinition of this name as it is written, where its patterns are patterns.
pub(crate) fn written_schema<'a, I: Inputs>(
    alloc: Global,
    arguments: &CommonArguments<'a>,
    inputs: &mut I,
) -> Result<WrittenSchema, Refusal<'a>>
    ensures written { IfOk result (λ w. IsRequestedWritten (I.has inputs.old) arguments.now w.schema.tree) }
    ensures patterns { IfOk result (λ w. HasPatterns w.schema.tree) }
    ensures cause { IfErr result (λ r. IsWrittenCause (I.has inputs.old) (I.failures inputs.old) (I.failures inputs.new) arguments.now r.cause) }
    ensures stays { AreAmong (I.has inputs.new) (I.has inputs.old) }
    ensures lines { AreLinesAmong (I.lines inputs.new) (I.lines inputs.old) }
    ensures unfailed { OnOk result (I.failures inputs.new ≡ I.failures inputs.old) }
{
    let Definition { document: _, crd } = read_definition(alloc, arguments, inputs)?;
    let schema = crd.raw;
    match compile_patterns(alloc, schema.tree()) {
        Ok(mut patterns) => {
            compile_formats(alloc, schema.tree(), &mut patterns)?;
            Ok(WrittenSchema { schema, patterns })
        }
        Err(cause) => Err(cause.into()),
    }
}

/// How a definition is read: by the profile that the arguments name, within the limits that they ask for.
pub(crate) fn reading_of(arguments: &CommonArguments<'_>) -> Reading
    ensures { result ≡ reading_of arguments.now }
{
    Reading {
        profile: arguments.profile,
        limits: limits_of(arguments),
    }
}

/// The limits of a definition that the arguments ask for.
fn limits_of(arguments: &CommonArguments<'_>) -> Limits
    ensures { result ≡ limits_of arguments.now }
{
    schema::laws::limits_by_name();
    if arguments.large {
        Limits::LARGE
    } else {
        Limits::STANDARD
    }
}

/// The limits of pools that the arguments ask for.
pub(crate) fn pool_limits_of(arguments: &CommonArguments<'_>) -> PoolLimits
    ensures { result ≡ pool_limits_of arguments.now }
{
    plan::laws::named_pool_limits();
    if arguments.large {
        PoolLimits::LARGE
    } else {
        PoolLimits::STANDARD
    }
}

/// The pools of the document that is named, and empty pools where none is.
pub(crate) fn pools_of<'a, I: Inputs>(
    alloc: Global,
    arguments: &PlanArguments<'a>,
    inputs: &mut I,
) -> Result<PoolsRead, Refusal<'a>>
    ensures ok { IfOk result (λ read. ArePools (I.has inputs.old (numbers_of arguments.now.common)) arguments.now.common.profile (pool_limits_of arguments.now.common) arguments.now.pools read.pools) }
    ensures cause { IfErr result (λ r. IsPoolsCause (I.has inputs.old (numbers_of arguments.now.common)) (I.failures inputs.old) (I.failures inputs.new) arguments.now.common.profile (pool_limits_of arguments.now.common) arguments.now.pools r.cause) }
{
    let Some(name) = arguments.pools else {
        return Ok(PoolsRead {
            document: None,
            pools: Pools::new(alloc),
        });
    };
    let document = read_document(inputs, arguments.common.profile, Input::Pools, name)?;
    let limits = pool_limits_of(&arguments.common);
    match Pools::read_by(alloc, &document, arguments.common.profile, limits) {
        Ok(pools) => Ok(PoolsRead {
            document: Some(document),
            pools,
        }),
        Err(fault) => Err(Refusal {
            cause: fault.into(),
            subject: Subject::Pools(document),
        }),
    }
}

/// The document of the input of this name.
pub(crate) fn read_document<'a, I: Inputs>(
    inputs: &mut I,
    profile: Profile,
    input: Input,
    name: InputName<'a>,
) -> Result<Tree, Refusal<'a>>
    ensures ok { IfOk result (λ t. I.has inputs.old (numbers_by profile) (file_name name.entry) (Ok (data_of t))) }
    ensures cause { IfErr result (λ r. IsReadFailure (I.has inputs.old (numbers_by profile)) (I.failures inputs.old) (I.failures inputs.new) input (file_name name.entry) r.cause) }
    ensures stays { AreAmong (I.has inputs.new) (I.has inputs.old) }
    ensures lines { AreLinesAmong (I.lines inputs.new) (I.lines inputs.old) }
    ensures unfailed { OnOk result (I.failures inputs.new ≡ I.failures inputs.old) }
{
    let subject = Subject::Input(name);
    match inputs.tree(name, numbers_by(profile)) {
        Ok(tree) => Ok(tree),
        Err(InFault::Failed) => {
            let cause = Cause::Read(input);
            Err(Refusal { cause, subject })
        }
        Err(InFault::Document(JFault::NoMemory)) => Err(Cause::NoMemory.into()),
        Err(InFault::Document(fault)) => {
            let cause = Cause::Document(input, fault);
            Err(Refusal { cause, subject })
        }
    }
}

/// The tree to go on from: what the text is read as, without its envelope; none without a text.
pub(crate) fn after_of<'a>(
    alloc: Global,
    profile: Profile,
    text: Option<&'a str>,
) -> Result<Option<Tree>, Refusal<'a>>
    ensures ok { IfOk result (λ t. IsAfter (numbers_by profile) text.entry (option_map data_of t)) }
    ensures cause { IfErr result (λ r. IsAfterCause (numbers_by profile) text.entry r.cause) }
{
    match text {
        Some(text) => Ok(Some(body_of(alloc, profile, text)?)),
        None => Ok(None),
    }
}

/// What the text is read as, without its envelope.
fn body_of<'a>(alloc: Global, profile: Profile, text: &'a str) -> Result<Tree, Refusal<'a>>
    ensures ok { IfOk result (λ t. (document : Data) × ReadsWith (numbers_by profile) text.now document × (data_of t ≡ body document)) }
    ensures cause { IfErr result (λ r. IsTextCause (numbers_by profile) text.now r.cause) }
{
    match Tree::from_bytes_with(alloc, text.as_bytes(), numbers_by(profile)) {
        Ok(mut tree) => {
            drop(split(&mut tree));
            Ok(tree)
        }
        Err(JFault::NoMemory) => Err(Cause::NoMemory.into()),
        Err(fault) => Err(Refusal {
            cause: Cause::Document(Input::After, fault),
            subject: Subject::Text(text),
        }),
    }
}
