//! A graph as a list, put into a sink.
ghost use Rattle.std.specs.Prelude.{◌≡◌, ◌<◌, true, OnOk, OnErr, length};
ghost use Rattle.std.specs.List.{All, flat_map};
ghost use Rattle.edge_io.specs.Output.{TookPart};
ghost use Rattle.c_text.specs.Output.{Took};
ghost use Rattle.listing.specs.Lists.{shows_table, node_tables, node_text, place_text, proc_text, list_text};
ghost use Rattle.listing.specs.Listable.{HasOneTable, IsListable};

use crate::lines::{put_point, put_proc_line, put_table};
use crate::tables::{shows_table, table_at};
use edge_io::{Sink, WriteFault};
use points::{Graph, JumpTable, Node, Proc, Summary};

/// Puts the line of a node's table, where it shows one.
fn put_node_table<K: Sink>(out: &mut K, tables: &[JumpTable], node: &Node) -> Result<(), WriteFault>
    requires { shows_table node.now ≡ true → HasOneTable tables.now node.now.point.pc }
    ensures took { OnOk result (Took (K.output out.old) (K.output out.new) (node_tables tables.now node.now)) }
    ensures part { OnErr result (TookPart (K.output out.old) (K.output out.new) (node_tables tables.now node.now)) }
{
    if shows_table(node) {
        put_table(out, table_at(tables, node.point.pc))
    } else {
        Ok(())
    }
}

/// Puts the lines of a node.
fn put_node<K: Sink>(out: &mut K, tables: &[JumpTable], node: &Node) -> Result<(), WriteFault>
    requires { shows_table node.now ≡ true → HasOneTable tables.now node.now.point.pc }
    ensures took { OnOk result (Took (K.output out.old) (K.output out.new) (node_text tables.now node.now)) }
    ensures part { OnErr result (TookPart (K.output out.old) (K.output out.new) (node_text tables.now node.now)) }
{
    put_point(out, node.point)?;
    put_node_table(out, tables, node)
}

/// Puts the lines of the node at a place.
fn put_place<K: Sink>(out: &mut K, graph: &Graph, place: u32) -> Result<(), WriteFault>
    requires within { place < length graph.now.nodes }
    requires tables { All (λ n. shows_table n ≡ true → HasOneTable graph.now.tables n.point.pc) graph.now.nodes }
    ensures took { OnOk result (Took (K.output out.old) (K.output out.new) (place_text graph.now place)) }
    ensures part { OnErr result (TookPart (K.output out.old) (K.output out.new) (place_text graph.now place)) }
{
    let node = &graph.nodes.as_slice()[place as usize];
    put_node(out, graph.tables.as_slice(), node)
}

/// Puts the lines of a procedure's points.
fn put_body<K: Sink>(out: &mut K, graph: &Graph, body: &[u32]) -> Result<(), WriteFault>
    requires within { All (λ k. k < length graph.now.nodes) body.now }
    requires tables { All (λ n. shows_table n ≡ true → HasOneTable graph.now.tables n.point.pc) graph.now.nodes }
    ensures took { OnOk result (Took (K.output out.old) (K.output out.new) (flat_map (place_text graph.now) body.now)) }
    ensures part { OnErr result (TookPart (K.output out.old) (K.output out.new) (flat_map (place_text graph.now) body.now)) }
{
    for place in body {
        put_place(out, graph, *place)?;
    }
    Ok(())
}

/// Puts the lines of a procedure.
fn put_proc<K: Sink>(
    out: &mut K,
    graph: &Graph,
    proc: &Proc,
    sum: &Summary,
) -> Result<(), WriteFault>
    requires within { All (λ k. k < length graph.now.nodes) proc.now.body }
    requires tables { All (λ n. shows_table n ≡ true → HasOneTable graph.now.tables n.point.pc) graph.now.nodes }
    ensures took { OnOk result (Took (K.output out.old) (K.output out.new) (proc_text graph.now proc.now sum.now)) }
    ensures part { OnErr result (TookPart (K.output out.old) (K.output out.new) (proc_text graph.now proc.now sum.now)) }
{
    put_proc_line(out, proc, sum)?;
    put_body(out, graph, proc.body.as_slice())
}

/// Puts the list of a graph with the summaries of its procedures: for each procedure, in the order of the graph, its line
/// `proc E refs LIST mods LIST`, then for each point of its body a line `point PC SLOT`, and behind the point of a
/// computed plain jump with nothing to come the line `table A COUNT` with the targets. Addresses are 8 hexadecimal digits. A
/// LIST is the numbers of cells with commas between them, or `-`. A SLOT is a letter for the jump that is still to come,
/// and its addresses: `S` none, `T` a target, `D` the address of a computed jump, `C` the target of a call and the
/// return address, `E` the return address of a computed call, `R` a return.
///
/// It takes no memory. A write fault comes only where the count of faults of `out` rose; `out` has then taken a proper
/// front of the list.
pub fn list_all<K: Sink>(graph: &Graph, sums: &[Summary], out: &mut K) -> Result<(), WriteFault>
    requires { IsListable graph.now sums.now }
    ensures took { OnOk result (Took (K.output out.old) (K.output out.new) (list_text graph.now sums.now)) }
    ensures part { OnErr result (TookPart (K.output out.old) (K.output out.new) (list_text graph.now sums.now)) }
{
    let procs = graph.procs.as_slice();
    for place in 0..procs.len() {
        put_proc(out, graph, &procs[place], &sums[place])?;
    }
    Ok(())
}
