//! A run of the program: its words, its text, what it writes and its status.
ghost use Rattle.std.specs.Prelude.{◌≡◌, ◌≢◌, None, OnOk, IfOk, IfErr, flat_map};
ghost use Rattle.std.specs.IoError.{error_kind};
ghost use Rattle.cedar_expressions.specs.Value.{Value};
ghost use Rattle.cedar_syntax.specs.trees.Forms.{located, expr_form};
ghost use Rattle.cedar_grammar.specs.grammar.Grammar.{IsTreeOf};
ghost use Rattle.cedar_grammar.specs.grammar.LooseExpressions.{ReadsExpr};
ghost use Rattle.cedar_syntax.specs.faults.ParseErrors.{faults_of, IsMemory};
ghost use Rattle.cedar_conversion.specs.outcome.Conversion.{Converts};
ghost use Rattle.cedar_conversion.specs.strict.Table.{table_of};
ghost use Rattle.cedar_policy_parser.specs.faults.Refused.{TellsTree};
ghost use Rattle.cedar_command.specs.Ends.{IsMeant, IsVerdict, IsAnswerWritten, IsAnswerBegun, IsAnswered, RefusesFor, tree_lines, streams_at, Ends, Stops, StopsWriting, TellsEnd, status_of};
ghost use Rattle.cedar_command.specs.FaultLines.{AreFaultsWritten, fault_line};
ghost use Rattle.cedar_command.specs.Streams.{AreBytesWritten, FailsFor, stream, writing, reader_of, read_failure, writer_state};
ghost use Rattle.cedar_command.specs.Request.{AsksForNothing, styles_of};
ghost use Rattle.cedar_command.specs.declared.run.Ending.{Ending as How};
ghost use Rattle.cedar_command.specs.declared.run.Ending.TheVariants.{Stopped, Usage};
ghost use Rattle.cedar_command.specs.declared.run.Verdict.TheVariants as verdict;
ghost use Rattle.cedar_command.specs.declared.request.Command.TheVariants as command;

use crate::format::format;
use crate::policies::policies;
use crate::request::{Command, Request, command_of, request_of};
use crate::streams::{Input, Output, Stop, WriterState};
use cedar_expressions::ExprBuilder;
use cedar_policy_parser::ExtStyles;
use cedar_policy_parser::cst_to_ast::ExprAst;
use cedar_policy_parser::laws::{converted_is_meant, meant_is_converted};
use cedar_syntax::cst::Expr;
use cedar_syntax::err::{Failure, ParseError, ParseErrors};
use cedar_syntax::node::Node;
use cedar_text::text_to_cst::parse_expr;
use std::alloc::Global;
use std::env::Env;
use std::io::{ErrorKind, Read, Write};
use std::{env, fmt, io};

const USAGE: &str = "usage: cedar-parse expr|policies|format [fn:NAME | method:NAME]*";

/// What the text turned out to be.
#[derive(Clone, Copy)]
pub enum Verdict {
    Accepted,
    Refused,
}

/// How a run ends.
#[derive(Clone, Copy)]
pub enum Ending {
    Answered(Verdict),
    Usage,
    Stopped(Stop),
}

impl fmt::Display for Ending {
    ghost use Rattle.std.proofs.Common.{Some};
    ghost use Rattle.cedar_command.specs.Ends.{message_of};

    ghost output = { λ end. Some (message_of end) };

    /// What is said of a run that ends without an answer.
    fn fmt<W: fmt::Write>(&self, f: &mut fmt::Formatter<W>) -> fmt::Result {
        match self {
            Ending::Answered(_) => Ok(()),
            Ending::Usage => f.write_str(USAGE),
            Ending::Stopped(stop) => write!(f, "{stop}"),
        }
    }
}

impl Ending {
    fn status(&self) -> u8
        ensures { result ≡ status_of self.now }
    {
        match self {
            Ending::Answered(Verdict::Accepted) => 0,
            Ending::Answered(Verdict::Refused) => 1,
            Ending::Usage => 2,
            Ending::Stopped(Stop::Memory) => 3,
            Ending::Stopped(Stop::InputOutput | Stop::NotUtf8(_)) => 4,
        }
    }
}

/// The arguments without the program's name.
pub fn arguments<R: Env + AllocGlobal>(rt: &R) -> io::Result<Vec<String>> {
    let mut words = Vec::new(rt.alloc());
    for word in env::args(rt)?.skip(1) {
        words.push(word)?;
    }
    Ok(words)
}

/// Does what `words` (the arguments without the program's name) ask of the text that `input`
/// gives, and answers the status: 0 where the text is accepted, 1 where it has faults, 2 for a
/// usage fault, 3 for want of memory, 4 where reading or writing failed, also for input that isn't
/// UTF-8. The answer, or the faults, go to `out`, and then nothing to `err`; why there is no
/// answer goes to `err`, on a line. Of a usage fault nothing goes to `out`, of a failed read
/// neither, and where memory is refused, but to a write, at most the lines of the first policies.
/// A text may call the extension functions and methods that the words name, and no others.
pub fn run<R: Read + Drop, O: Write, E: Write>(
    alloc: Global,
    words: &[String],
    input: &mut Input<R>,
    out: &mut Output<O>,
    err: &mut Output<E>,
) -> u8
    ensures ends { (end : How) × (result ≡ status_of end)
        × Ends words.now (streams_at (R.remaining (reader_of input.old)) input.new
        (stream O.contents out.old out.new) (stream E.contents err.old err.new)) end }
    ensures unread { AsksForNothing words.now → input.new ≡ input.old }
{
    match command_of(words) {
        None => tell(Ending::Usage, err),
        Some(command) => match answer(alloc, command, words, input, out) {
            Ok(verdict) => Ending::Answered(verdict).status(),
            Err(stop) => tell(Ending::Stopped(stop), err),
        },
    }
}

/// Ends a run for which no memory was left before it began.
pub fn refuse<E: Write>(err: &mut Output<E>) -> u8
    ensures { TellsEnd (Stopped Stop.Memory) (stream E.contents err.old err.new) result }
{
    tell(Ending::Stopped(Stop::Memory), err)
}

/// Ends a run whose arguments can't be had: a usage fault where one isn't UTF-8, else want of
/// memory.
pub fn refuse_arguments<E: Write>(error: io::Error, err: &mut Output<E>) -> u8
    ensures usage { error_kind error ≡ ErrorKind.InvalidData
        → TellsEnd Usage (stream E.contents err.old err.new) result }
    ensures memory { error_kind error ≢ ErrorKind.InvalidData
        → TellsEnd (Stopped Stop.Memory) (stream E.contents err.old err.new) result }
{
    match error.kind() {
        ErrorKind::InvalidData => tell(Ending::Usage, err),
        _ => refuse(err),
    }
}

/// Says on `err` why the run ended, and answers its status, or that of a write that failed.
fn tell<E: Write>(ending: Ending, err: &mut Output<E>) -> u8
    ensures { TellsEnd ending (stream E.contents err.old err.new) result }
{
    match writeln!(err, "{ending}") {
        Ok(()) => ending.status(),
        Err(_) => Ending::Stopped(Stop::InputOutput).status(),
    }
}

/// Reads the text and answers it.
fn answer<R: Read + Drop, O: Write>(
    alloc: Global,
    command: Command,
    words: &[String],
    input: &mut Input<R>,
    out: &mut Output<O>,
) -> Result<Verdict, Stop>
    ensures answered { IfOk result (λ v. IsAnswered command (styles_of words.now)
        (R.remaining (reader_of input.old)) v (writing O.contents out.old out.new)) }
    ensures read { OnOk result (read_failure input.new ≡ None) }
    ensures flushed { OnOk result (writer_state out.new ≡ WriterState.Flushed) }
    ensures stops { IfErr result (λ stop. Stops command (styles_of words.now)
        (R.remaining (reader_of input.old)) (read_failure input.new)
        (stream O.contents out.old out.new) stop) }
{
    let text = input.text(alloc)?;
    answer_text(alloc, command, words, text.as_str(), out)
}

/// Makes the request and answers the text.
fn answer_text<O: Write>(
    alloc: Global,
    command: Command,
    words: &[String],
    text: &str,
    out: &mut Output<O>,
) -> Result<Verdict, Stop>
    ensures verdict { IfOk result (λ v. IsVerdict command (styles_of words.now) text.now v) }
    ensures written { IfOk result (λ v. IsAnswerWritten command
        (styles_of words.now) text.now v (writing O.contents out.old out.new)) }
    ensures flushed { OnOk result (writer_state out.new ≡ WriterState.Flushed) }
    ensures stops { IfErr result (λ stop. StopsWriting (IsAnswerBegun command
        (styles_of words.now) text.now (stream O.contents out.old out.new))
        (writer_state out.new) stop) }
{
    match request_of(alloc, command, words) {
        Ok(request) => write_answer(alloc, &request, text, out),
        Err(_) => Err(Stop::Memory),
    }
}

/// Prints the answer and passes on what the writer holds back.
fn write_answer<O: Write>(
    alloc: Global,
    request: &Request,
    text: &str,
    out: &mut Output<O>,
) -> Result<Verdict, Stop>
    ensures verdict { IfOk result (λ v.
        IsVerdict request.now.command (table_of request.now.styles) text.now v) }
    ensures written { IfOk result (λ v. IsAnswerWritten request.now.command
        (table_of request.now.styles) text.now v (writing O.contents out.old out.new)) }
    ensures flushed { OnOk result (writer_state out.new ≡ WriterState.Flushed) }
    ensures stops { IfErr result (λ stop. StopsWriting (IsAnswerBegun request.now.command
        (table_of request.now.styles) text.now (stream O.contents out.old out.new))
        (writer_state out.new) stop) }
{
    let verdict = dispatch(alloc, request.command, &request.styles, text, out)?;
    out.flush()?;
    Ok(verdict)
}

/// Prints what the command asks for, or the text's faults.
fn dispatch<O: Write>(
    alloc: Global,
    command: Command,
    styles: &ExtStyles,
    text: &str,
    out: &mut Output<O>,
) -> Result<Verdict, Stop>
    ensures verdict { IfOk result (λ v. IsVerdict command (table_of styles.now) text.now v) }
    ensures written { IfOk result (λ v. IsAnswerWritten command
        (table_of styles.now) text.now v (writing O.contents out.old out.new)) }
    ensures stops { IfErr result (λ stop. StopsWriting (IsAnswerBegun command
        (table_of styles.now) text.now (stream O.contents out.old out.new))
        (writer_state out.new) stop) }
{
    match command {
        Command::Expression => expression(alloc, styles, text, out),
        Command::Policies => policies(alloc, styles, text, out),
        Command::Format => format(alloc, styles, text, out),
    }
}

/// Prints the text's tree and `ok`, or its faults.
fn expression<O: Write>(
    alloc: Global,
    styles: &ExtStyles,
    text: &str,
    out: &mut Output<O>,
) -> Result<Verdict, Stop>
    ensures verdict { IfOk result (λ v.
        IsVerdict command.Expression (table_of styles.now) text.now v) }
    ensures written { IfOk result (λ v. IsAnswerWritten command.Expression
        (table_of styles.now) text.now v (writing O.contents out.old out.new)) }
    ensures stops { IfErr result (λ stop.
        StopsWriting (out.new ≡ out.old) (writer_state out.new) stop) }
{
    match tree_of(alloc, styles, text) {
        Ok(tree) => print_tree(&tree, out),
        Err(failure) => print_failure(&failure, out),
    }
}

/// The tree of a text that means an expression under a table.
fn tree_of(alloc: Global, styles: &ExtStyles, text: &str) -> Result<Node<Option<Expr>>, Failure>
    ensures meant { IfOk result (λ tree.
        IsMeant command.Expression (table_of styles.now) text.now) }
    ensures tree { IfOk result (λ tree. IsTreeOf ReadsExpr text.now tree) }
    ensures only { IsMeant command.Expression (table_of styles.now) text.now
        → IfErr result IsMemory }
    ensures refused { IfErr result (λ failure.
        RefusesFor command.Expression (table_of styles.now) text.now failure) }
{
    meant_is_converted();
    converted_is_meant();
    let tree = parse_expr(alloc, text)?;
    convert(alloc, styles, &tree)?;
    Ok(tree)
}

/// Refuses a tree that stands for no expression.
fn convert(alloc: Global, styles: &ExtStyles, tree: &Node<Option<Expr>>) -> Result<(), Failure>
    ensures value { IfOk result (λ done.
        (w : Value) × Converts (table_of styles.now) (located expr_form tree.now) w) }
    ensures refused { IfErr result (λ failure.
        TellsTree (table_of styles.now) failure tree.now) }
{
    tree.to_expr::<ExprBuilder<()>>(alloc, styles).and(Ok(()))
}

/// A tree on a line of its own, and `ok` on the next one.
fn print_tree<O: Write>(tree: &Node<Option<Expr>>, out: &mut Output<O>) -> Result<Verdict, Stop>
    ensures verdict { IfOk result (λ v. v ≡ verdict.Accepted) }
    ensures written { OnOk result (AreBytesWritten (tree_lines tree.now.node)
        (writing O.contents out.old out.new)) }
    ensures failed { IfErr result (FailsFor (writer_state out.new)) }
{
    match tree.as_inner() {
        Some(expr) => writeln!(out, "{expr}\nok")?,
        None => writeln!(out, "ok")?,
    }
    Ok(Verdict::Accepted)
}

/// Prints the faults of a text; want of memory is none of them, and prints nothing.
pub(crate) fn print_failure<O: Write>(
    failure: &Failure,
    out: &mut Output<O>,
) -> Result<Verdict, Stop>
    ensures verdict { IfOk result (λ v. (v ≡ verdict.Refused) × ¬ (IsMemory failure.now)) }
    ensures written { OnOk result (AreFaultsWritten failure.now
        (writing O.contents out.old out.new)) }
    ensures stops { IfErr result (λ stop.
        StopsWriting (out.new ≡ out.old) (writer_state out.new) stop) }
{
    match failure {
        Failure::Memory(_) => Err(Stop::Memory),
        Failure::Errors(faults) => {
            print_faults(faults, out)?;
            Ok(Verdict::Refused)
        }
    }
}

/// One line a fault.
fn print_faults<O: Write>(faults: &ParseErrors, out: &mut Output<O>) -> Result<(), Stop>
    ensures written { OnOk result (AreBytesWritten (flat_map fault_line (faults_of faults.now))
        (writing O.contents out.old out.new)) }
    ensures failed { IfErr result (FailsFor (writer_state out.new)) }
{
    for fault in faults.iter() {
        print_fault(fault, out)?;
    }
    Ok(())
}

/// A fault's place and what is said of it; a dash where it has no place.
pub fn print_fault<O: Write>(fault: &ParseError, out: &mut Output<O>) -> Result<(), Stop>
    ensures written { OnOk result (AreBytesWritten (fault_line fault.now)
        (writing O.contents out.old out.new)) }
    ensures failed { IfErr result (FailsFor (writer_state out.new)) }
{
    match fault.primary_source_span() {
        Some(span) => writeln!(out, "{}..{}: {fault}", span.offset(), span.end())?,
        None => writeln!(out, "-: {fault}")?,
    }
    Ok(())
}
