//! What holds of the nodes of all table files. These functions do nothing: their contracts are the laws.

ghost use Rattle.table_files.specs.FileNodes.{FilesHaveOneNode, NodesHaveNoBadLine};

use sn_ranges::laws::one_list_for_each_set;
use table_lines::laws::files_have_tables;

/// The bytes of a table have one node in a style: each set has one least list of ranges, and no two rows have one place
/// in the order of style chain. And no line of them breaks a rule.
pub fn files_have_one_node()
    ensures one { FilesHaveOneNode }
    ensures good { NodesHaveNoBadLine }
{
    files_have_tables();
    one_list_for_each_set();
}
