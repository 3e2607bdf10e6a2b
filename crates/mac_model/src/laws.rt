//! What holds of the nodes of all MAC tables. The function does nothing: its contract is the law.

ghost use Rattle.mac_model.specs.Laws.{FilesHaveMacs, FilesSend};

use table_lines::laws::files_have_tables;
use table_nodes::laws::nodes_send_as_their_tables;

/// In each style the node of a file's table sends an address to its row's port, and one without a
/// row to all ports.
pub fn mac_files_send()
    ensures tables { FilesHaveMacs }
    ensures sends { FilesSend }
{
    files_have_tables();
    nodes_send_as_their_tables();
}
