// Rows of bytes as the files and texts above speak of them: put into a lent buffer, or a text's characters. There is no code here.
#![tactic(auto)]
