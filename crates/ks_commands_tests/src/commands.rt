//! Each command as it is meant to be used, and the questions about objects.
use crate::golden::*;
use crate::steps::play_each;
use std::test::Fail;

#[test]
fn commands_over_trees(rt: HostRuntime) -> Result<(), Fail> {
    play_each(
        &rt,
        rt.alloc(),
        &[
            EACH_COMMAND,
            BY_EITHER_FORM,
            BY_RULES,
            QUERIES,
            AS_JSON,
            SECOND_RULE,
            WITHOUT_AUTO_CONF,
            USUAL_TREE,
            UNTYPED_TREE,
            RETYPED,
        ],
    )
}
