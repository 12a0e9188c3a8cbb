//! The edges of a run, line by line, or as a graph in the DOT language.

ghost use Rattle.std.specs.Prelude.{◌≤◌, ◌⊎◌, OnOk};
ghost use Rattle.command_run.specs.CommandAnswers.{AnswersReportOf, IsOutOfMemory};
ghost use Rattle.command_run.specs.Glue.{Prints};
ghost use Rattle.command_run.specs.ReportAnswers.{AnswersGraph, ShowsEdges, dot_edge_lines, dot_lines, edge_lines, graph_lines};
ghost use Rattle.command_run.specs.Runs.{Adds, Wrote};

use crate::answering::say;
use crate::commands::judged_case::case_report;
use crate::hearing::Hears;
use crate::host::Host;
use crate::output::Output;
use crate::watch::Watch;
use authority::{Graph, graph};
use case_files::Source;
use case_report::Report;
use report_lines::{Answer, DotBound, DotEdge, Fault, ShownEdge, ShownLine};
use run_model::Run;
use std::alloc::Global;
use std::sync::Wait;
use std::thread::Threads;

/// Writes the lines of edges. More may follow.
fn put_edges<O: Output>(graph: &Graph, out: &mut O) -> Result<(), O::Error>
    requires { O.can_write out.old }
    ensures lines { OnOk result (Adds O.contents out.old (edge_lines graph.now) out.new) }
    ensures more { OnOk result (O.can_write out.new) }
{
    for edge in graph.edges() {
        out.write_line(ShownLine::Edge(ShownEdge(edge)))?;
    }
    Ok(())
}

/// Writes the lines of edges in the DOT language. More may follow.
fn put_dot_edges<O: Output>(graph: &Graph, out: &mut O) -> Result<(), O::Error>
    requires { O.can_write out.old }
    ensures lines { OnOk result (Adds O.contents out.old (dot_edge_lines graph.now) out.new) }
    ensures more { OnOk result (O.can_write out.new) }
{
    for edge in graph.edges() {
        out.write_line(ShownLine::DotEdge(DotEdge(edge)))?;
    }
    Ok(())
}

/// Writes the lines of a graph in the DOT language. More may follow.
fn put_dot<O: Output>(graph: &Graph, out: &mut O) -> Result<(), O::Error>
    requires { O.can_write out.old }
    ensures lines { OnOk result (Adds O.contents out.old (dot_lines graph.now) out.new) }
    ensures more { OnOk result (O.can_write out.new) }
{
    out.write_line(ShownLine::DotBound(DotBound::Head))?;
    put_dot_edges(graph, out)?;
    out.write_line(ShownLine::DotBound(DotBound::End))?;
    Ok(())
}

/// Writes the lines of edges, in the DOT language where that is asked for. More may follow.
fn put_graph<O: Output>(graph: &Graph, dot: bool, out: &mut O) -> Result<(), O::Error>
    requires { O.can_write out.old }
    ensures lines { OnOk result (Adds O.contents out.old (graph_lines dot graph.now) out.new) }
    ensures more { OnOk result (O.can_write out.new) }
{
    if dot {
        put_dot(graph, out)
    } else {
        put_edges(graph, out)
    }
}

/// Says the edges of a run, or that memory ran out.
fn say_edges<O: Output, H: Hears>(
    alloc: Global,
    run: &Run,
    dot: bool,
    heard: &mut H,
    out: &mut O,
) -> Result<u8, O::Error>
    requires { O.can_write out.old }
    ensures { Prints (λ text status. ShowsEdges dot run.now text status ⊎ IsOutOfMemory text status)
        (Wrote O.contents O.is_finished) out.old out.new result }
{
    let Ok(graph) = graph(alloc, run) else {
        return say(Answer::Fault(Fault::OutOfMemory), heard, out);
    };
    put_graph(&graph, dot, out)?;
    out.finish()?;
    Ok(0)
}

/// Audits the case that a source has under a name, by so many workers, and says which vat came to have which capability of another, where the
/// report is yes, a line each, or in the DOT language where that is asked for; else it says the report.
pub fn say_graph<R: Threads + Wait + Sync, G: Watch + Sync, S: Source, O: Output, H: Hears>(
    host: &Host<'_, R, G>,
    name: &str,
    workers: u32,
    dot: bool,
    source: &mut S,
    heard: &mut H,
    out: &mut O,
) -> Result<u8, O::Error>
    requires some { 1 ≤ workers }
    requires few { workers ≤ 64 }
    requires out { O.can_write out.old }
    ensures { Prints (AnswersReportOf (AnswersGraph dot) S.read_gives source.old name.now source.new)
        (Wrote O.contents O.is_finished) out.old out.new result }
{
    let report = match case_report(host, name, workers, source, heard) {
        Ok(report) => report,
        Err(fault) => return say(Answer::Fault(fault), heard, out),
    };
    match report {
        Report::Yes { run, .. } => say_edges(host.alloc, &run, dot, heard, out),
        report => say(Answer::Report(report), heard, out),
    }
}
