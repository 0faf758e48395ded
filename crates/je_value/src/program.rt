//! What a method does.

ghost use Rattle.std.specs.Prelude.{◌≡◌};
ghost use Rattle.std.specs.Option.{option_copied};

use crate::kind::Kind;
use crate::operation::Operation;
use je_base::Run;
use sqlite_items::Items;
use std::marker::Model;

/// An entry of the exception table (JVMS 4.7.3), which contracts see as the definition's `Handler`:
/// instructions from a start up to, not including, an end, the first instruction of the handler,
/// and the class that it catches, or none where it catches all.
#[derive(Debug, Drop)]
pub struct Handler {
    start: usize,
    end: usize,
    target: usize,
    catch_class: Option<Run>,
}

impl Model for Handler {
    ghost use Rattle.je_machine.specs.Operation as machine;

    ghost Value = { machine.Handler };

    ghost view = { λ h. record {
      start = h.start;
      end = h.end;
      target = h.target;
      catch_class = h.catch_class;
    } };
}

impl Handler {
    /// The entry of these instructions and of this class.
    pub fn of(start: usize, end: usize, target: usize, catch_class: Option<Run>) -> Handler
        ensures start { result.start ≡ start }
        ensures end { result.end ≡ end }
        ensures target { result.target ≡ target }
        ensures catch_class { result.catch_class ≡ catch_class }
    {
        Handler {
            start,
            end,
            target,
            catch_class,
        }
    }

    /// The first instruction that it covers.
    pub fn start(&self) -> usize
        ensures { result ≡ self.now.start }
    {
        self.start
    }

    /// The instruction behind the last one that it covers.
    pub fn end(&self) -> usize
        ensures { result ≡ self.now.end }
    {
        self.end
    }

    /// The first instruction of the handler.
    pub fn target(&self) -> usize
        ensures { result ≡ self.now.target }
    {
        self.target
    }

    /// The class that it catches, or `None` where it catches all.
    pub fn catch_class(&self) -> Option<&Run>
        ensures { option_copied result ≡ self.now.catch_class }
    {
        self.catch_class.as_ref()
    }
}

/// What a method does, which contracts see as the definition's `Program`: the kinds of its
/// parameters, of which `this` is the first where there is one, its instructions and its handlers.
#[derive(Debug, Drop)]
pub struct Program {
    parameters: Items<Kind>,
    operations: Items<Operation>,
    handlers: Items<Handler>,
}

impl Model for Program {
    ghost use Rattle.je_machine.specs.Operation as machine;

    ghost Value = { machine.Program };

    ghost use Rattle.je_value.specs.ProgramCode.{program_code};

    ghost coded = { program_code };

    ghost view = { λ p. record {
      parameters = p.parameters;
      operations = p.operations;
      handlers = p.handlers;
    } };
}

impl Program {
    /// The program of these parts.
    pub fn of(
        parameters: Items<Kind>,
        operations: Items<Operation>,
        handlers: Items<Handler>,
    ) -> Program
        ensures parameters { result.parameters ≡ parameters }
        ensures operations { result.operations ≡ operations }
        ensures handlers { result.handlers ≡ handlers }
    {
        Program {
            parameters,
            operations,
            handlers,
        }
    }

    /// The kinds of the parameters.
    pub fn parameters(&self) -> &[Kind]
        ensures { result.now ≡ self.now.parameters }
    {
        self.parameters.as_slice()
    }

    /// The instructions.
    pub fn operations(&self) -> &[Operation]
        ensures { result.now ≡ self.now.operations }
    {
        self.operations.as_slice()
    }

    /// The handlers, in order.
    pub fn handlers(&self) -> &[Handler]
        ensures { result.now ≡ self.now.handlers }
    {
        self.handlers.as_slice()
    }
}
