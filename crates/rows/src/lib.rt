// Laws of arrays that are used as lists: padded rows, parts of flat arrays, loops that fill or shift them. They stand in specs/; there is no code here.
#![tactic(auto)]
