// The library's calls on the command line: `cri_tool help` lists the commands.
#![tactic(auto)]

fn main(rt: HostRuntime) {
    tool_commands::run_arguments(&rt);
}
