//! What holds of the nodes of all tables.

ghost use Rattle.table_nodes.specs.Laws.{NodesSend, SetsGrow};

/// In each style a table's node sends an address to the table's port for it; where it has none, to
/// all ports by a MAC table, and nowhere by a forwarding table.
pub fn nodes_send_as_their_tables()
    ensures { NodesSend }
{}

/// Sets for the first ports, and then one for the next port, are sets for one port more.
pub fn sets_grow()
    ensures { SetsGrow }
{}
