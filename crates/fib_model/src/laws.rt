//! What holds of the nodes of all forwarding tables. The function does nothing: its contract is the law.

ghost use Rattle.fib_model.specs.Laws.{FilesHaveFibs, FilesSend};

use table_lines::laws::files_have_tables;
use table_nodes::laws::nodes_send_as_their_tables;

/// In each style the node of a file's table sends an address by its longest prefix, and one without
/// a prefix nowhere.
pub fn fib_files_send()
    ensures tables { FilesHaveFibs }
    ensures sends { FilesSend }
{
    files_have_tables();
    nodes_send_as_their_tables();
}
