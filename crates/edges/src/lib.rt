// The starred cases of document 01, "Sizes and edges": a table and one statement. There is no code here.
#![tactic(auto)]
