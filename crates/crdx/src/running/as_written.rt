//! What `validate` answers under the profile `cluster`: objects are judged by the schema as it is written.
ghost use Rattle.std.specs.Prelude.{◌≡◌, true, Ok, IfOk, IfErr, string_bytes};
ghost use Rattle.jtree.specs.Data.{Data};
ghost use Rattle.jtree.specs.View.{data_of};
ghost use Rattle.judge.specs.Faults.{reported};
ghost use Rattle.crdx.specs.Internal.Cause.{IsInputCause, IsDocumentCause};
ghost use Rattle.crdx.specs.Program.Documents.{file_name};
ghost use Rattle.crdx.specs.Program.ObjectAnswer.{IsWrittenAnswer, fault_line, as_printed};
ghost use Rattle.crdx.specs.Program.Requested.{numbers_of};
ghost use Rattle.crdx.specs.Program.RunResult.{IsAnswer};
ghost use Rattle.crdx.specs.Program.Standard.{as_written, asks_as_written};
ghost use Rattle.crdx.specs.declared.arguments.request.Request.TheVariants.{Object};

use crate::arguments::ObjectArguments;
use crate::inputs::Inputs;
use crate::running::answer::Answer;
use crate::running::causes::Input;
use crate::running::documents::{WrittenSchema, read_document, written_schema};
use crate::running::lines::Lines;
use crate::running::objects::{answer_with, line_of_fault};
use crate::running::refusal::Refusal;
use formats::WithFormats;
use jtree::Tree;
use judge::{Fault, faults};
use patterns::PatternTests;
use std::alloc::{AllocError, Global};

/// What judges documents by a schema as it is written.
#[derive(Drop)]
pub(crate) struct WrittenJudge<'s> {
    pub schema: &'s Tree,
    /// The tests of texts by its patterns and formats.
    pub tests: PatternTests<'s>,
}

impl<'s> WrittenJudge<'s> {
    /// What judges by this schema.
    pub fn new(alloc: Global, written: &'s WrittenSchema) -> Result<WrittenJudge<'s>, AllocError>
        ensures { IfOk result (λ j. data_of j.schema.now ≡ written.now.schema.tree) }
    {
        Ok(WrittenJudge {
            schema: written.schema.tree(),
            tests: PatternTests::new(alloc, written.patterns.as_slice())?,
        })
    }

    /// Whether a document is valid, or what is wrong with it.
    pub fn validate(&mut self, alloc: Global, document: &Tree) -> Result<Answer, AllocError>
        ensures answer { IfOk result (λ a. IsWrittenAnswer (data_of self.old.schema.now) (data_of document.now) a.status (string_bytes a.out)) }
        ensures same { data_of self.new.schema.now ≡ data_of self.old.schema.now }
    {
        let mut tests = WithFormats {
            tests: &mut self.tests,
        };
        let found = faults(alloc, &mut tests, self.schema, document)?;
        Ok(answer_with(alloc, found.as_slice())?)
    }
}

/// Whether the document that is asked about is valid, or what is wrong with it.
pub(crate) fn judge_as_written<'a, I: Inputs>(
    alloc: Global,
    arguments: &ObjectArguments<'a>,
    inputs: &mut I,
) -> Result<Answer, Refusal<'a>>
    requires { asks_as_written arguments.now ≡ true }
    ensures answer { IfOk result (λ a. IsAnswer (I.has inputs.old) (Object arguments.now) a.status (string_bytes a.out)) }
    ensures cause { IfErr result (λ r. IsInputCause (I.has inputs.old) (I.failures inputs.old) (I.failures inputs.new) (Object arguments.now) r.cause) }
{
    let written = written_schema(alloc, &arguments.common, inputs)?;
    answer_by(alloc, arguments, &written, inputs)
}

/// The same by a schema that was read.
fn answer_by<'a, I: Inputs>(
    alloc: Global,
    arguments: &ObjectArguments<'a>,
    written: &WrittenSchema,
    inputs: &mut I,
) -> Result<Answer, Refusal<'a>>
    ensures answer { IfOk result (λ a. (document : Data) × I.has inputs.old (numbers_of arguments.now.common) (file_name arguments.now.object) (Ok document)
        × IsWrittenAnswer written.now.schema.tree document a.status (string_bytes a.out)) }
    ensures cause { IfErr result (λ r. IsDocumentCause (I.has inputs.old) (I.failures inputs.old) (I.failures inputs.new) (as_written written.now.schema.tree) arguments.now r.cause) }
{
    let profile = arguments.common.profile;
    let document = read_document(inputs, profile, Input::Object, arguments.object)?;
    let mut judge = WrittenJudge::new(alloc, written)?;
    Ok(judge.validate(alloc, &document)?)
}

/// The number, the path of the place as a JSON text, and what is wrong there.
impl Lines for Fault {
    ghost text = { λ fault. fault_line (as_printed (reported fault)) };

    fn lines(&self, alloc: Global) -> Result<String, AllocError> {
        line_of_fault(alloc, self.path.as_str(), self.test.number())
    }
}
