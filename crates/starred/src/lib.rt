// No code: the starred cases of docs/REQUIREMENTS.md, section 19, are a theorem about the definitions, in specs/Starred.antt.

#![tactic(auto)]
