//! Specifies the replies to a script: the flat session and the effect of each command on it. Contracts cite these
//! definitions; `sessions` answers lines accordingly, and `script_runner` runs scripts.
#![tactic(auto)]
