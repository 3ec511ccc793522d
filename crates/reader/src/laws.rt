ghost use Rattle.reader.specs.Examples.{ClaimNetRead, FaultsShown, NodesShown};
ghost use Rattle.reader.specs.Laws.{LeastDecides, NodesNumbered, BeginsInside, NodesClosed};

/// Of the faults of a text, the one with the smallest place decides, and of those at one place the one with the smallest number.
pub fn least_decides()
    ensures { LeastDecides }
{}

/// A worked text, from its bytes to the net that it stands for.
pub fn claim_net_read()
    ensures { ClaimNetRead }
{}

/// Worked texts, one for each rule of names, types and tables, with the fault that decides.
pub fn faults_shown()
    ensures { FaultsShown }
{}

/// Worked texts that show how nodes are numbered and linked.
pub fn nodes_shown()
    ensures { NodesShown }
{}

/// Nodes are numbered in the order of the text, a process begins with one of its own, and none leads out of its process.
pub fn nodes_linked()
    ensures numbered { NodesNumbered }
    ensures begins { BeginsInside }
    ensures closed { NodesClosed }
{}
